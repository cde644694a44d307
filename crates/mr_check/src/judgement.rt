/// What is judged of a history's text.
#[derive(Clone, Copy, Debug, PartialEq, Eq)]
pub enum Judgement {
    /// It is the text of a legal history that has what the scenario asks.
    Legal,
    /// The first line outside the grammar, from 1; 4,294,967,295 for one beyond.
    HistoryText { line: u32 },
    /// The first line at which a rule fails, from 1; 4,294,967,295 for one beyond.
    Illegal { line: u32 },
}
