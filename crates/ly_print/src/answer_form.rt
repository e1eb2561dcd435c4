/// The format of the output.
#[derive(Clone, Copy, Debug, PartialEq, Eq)]
pub enum AnswerForm {
    /// Plain text, with a term as `Add(NUM"1",NUM"2")`.
    Plain,
    /// JSON, one text a line.
    Json,
}
