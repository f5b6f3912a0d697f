#[derive(Clone, Copy, Debug, PartialEq, Eq)]
pub enum MatcherKindConst {
    Exact,
    Regex,
}

// What a definition is for: the name or the pattern, and the child count if one is given.
#[derive(Clone, Copy)]
pub struct MatcherConst<'a> {
    pub data: &'a [u8],
    pub children: Option<u32>,
    pub kind: MatcherKindConst,
}
