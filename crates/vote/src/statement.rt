use signer::Identifier;

// What a speaker says under an identifier.
#[derive(Clone, Copy, Debug, PartialEq, Eq)]
pub struct Statement {
    pub speaker: u8,
    pub id: Identifier,
    pub value: u16,
}
