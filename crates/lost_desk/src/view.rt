//! What a seat at the copies knows. It exists in proofs alone.
use lost_book::Limits;
use lost_history::Front;

/// What a seat knows: whether it knows the copies' limits and opening, these, the list that it has seen, and how often
/// it entered. No value of this type is made.
#[derive(Drop)]
pub struct View {
    pub is_known: bool,
    pub limits: Limits,
    pub front: Front,
    pub entries: u64,
}
