// The characters: stems and branches of a day or a year, mansions, terms.
use std::fmt;

const STEMS: [&str; 10] = ["甲", "乙", "丙", "丁", "戊", "己", "庚", "辛", "壬", "癸"];

const BRANCHES: [&str; 12] = ["子", "丑", "寅", "卯", "辰", "巳", "午", "未", "申", "酉", "戌", "亥"];

// 參 before 觜, as in the bureau's table of 1684
const MANSIONS: [&str; 28] = [
    "角", "亢", "氐", "房", "心", "尾", "箕", "斗", "牛", "女", "虛", "危", "室", "壁", "奎", "婁", "胃", "昴", "畢",
    "參", "觜", "井", "鬼", "柳", "星", "張", "翼", "軫",
];

pub(crate) const TERMS: [&str; 24] = [
    "冬至", "小寒", "大寒", "立春", "雨水", "驚蟄", "春分", "清明", "穀雨", "立夏", "小滿", "芒種", "夏至", "小暑", "大暑", "立秋",
    "處暑", "白露", "秋分", "寒露", "霜降", "立冬", "小雪", "大雪",
];

// The name of a day or a year, counted from 甲子, which is 0.
#[derive(Clone, Copy)]
pub(crate) struct StemAndBranch(pub(crate) u64);

impl StemAndBranch {
    // The name so many days or years after this one.
    pub(crate) fn after(self, further: i64) -> StemAndBranch {
        StemAndBranch(self.0 % 60 + further.rem_euclid(60).unsigned_abs())
    }
}

impl fmt::Display for StemAndBranch {
    fn fmt<W: fmt::Write>(&self, f: &mut fmt::Formatter<W>) -> fmt::Result {
        let stem = STEMS[(self.0 % 10) as usize];
        let branch = BRANCHES[(self.0 % 12) as usize];
        write!(f, "{stem}{branch}")
    }
}

pub(crate) fn mansion(number: u64) -> Option<&'static str> {
    MANSIONS.get(number as usize).copied()
}
