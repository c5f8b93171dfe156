//! What a link in memory has to give, in either of its two forms.
use crate::cut_input::CutInput;
use crate::piece_input::PieceInput;

/// One list with its cuts, or pieces with stalls between them.
#[derive(Drop)]
pub enum MemInput {
    Cut(CutInput),
    Pieces(PieceInput),
}
