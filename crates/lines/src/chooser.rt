// What is chosen: the code of a template's reading, and the match of a pattern where one was matched.
#[derive(Drop)]
pub struct Choice<'a, M> {
    pub code: &'a [u8],
    pub found: Option<M>,
}
