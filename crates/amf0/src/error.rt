// Why a body is refused.

#[derive(Clone, Copy, Debug, PartialEq, Eq)]
pub enum BodyError {
    // Not whole AMF0: refusal 2.
    NotAmf0,
    // A container inside eight others: refusal 3.
    TooDeep,
}
