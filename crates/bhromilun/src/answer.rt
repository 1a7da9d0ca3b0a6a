// What an answer is for C: 0, and what is found is stored; or the refusal's number.
ghost use Rattle.std.specs.Prelude.{◌≡◌, MatchResult};
ghost use Rattle.std.specs.Result.{ForOk};
ghost use Rattle.units.specs.Said.{number_of};

use book::Fault;
use units::Refusal;

// A refusal stores nothing.
pub(crate) fn tell<T, F: FnMut(T)>(answer: Result<T, Refusal>, store: &mut F) -> u64
    requires { ForOk answer (λ found. F.pre store.old found) }
    ensures { MatchResult answer (λ found. (result ≡ 0) × F.step store.old found tt store.new) (λ refusal. (result ≡ number_of refusal) × (store.new ≡ store.old)) }
{
    match answer {
        Ok(found) => {
            store(found);
            0
        }
        Err(refusal) => u64::from(refusal),
    }
}

// A book at fault is so at this byte.
pub(crate) fn tell_fault(fault: Fault, byte: &mut usize) -> u64
    ensures { (result ≡ number_of fault.refusal) × (byte.new ≡ fault.byte) }
{
    *byte = fault.byte;
    u64::from(fault.refusal)
}
