use templates::FormatterConst;

// A template all of whose separators are templates, with the greatest capture among its pieces and in its separators.
#[derive(Clone, Copy)]
pub struct Formatter<'a> {
    pub parts: FormatterConst<'a>,
    pub max_capture: Option<u32>,
}
