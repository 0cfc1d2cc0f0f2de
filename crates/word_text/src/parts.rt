use base::{Items, Text};

/// A list of texts.
pub type Texts = Items<Text>;

/// The text of a parameter: its name, its datatype, and the texts of its bounds where it has them.
#[derive(Drop)]
pub struct RawParam {
    pub name: Text,
    pub datatype: Text,
    pub low: Option<Texts>,
    pub high: Option<Texts>,
}

/// A list of parameters as texts.
pub type RawParams = Items<RawParam>;

/// The text of an operation: its name, its arguments and its results.
#[derive(Drop)]
pub struct RawOp {
    pub operation: Text,
    pub arguments: Texts,
    pub results: Texts,
}

/// A list of operations as texts.
pub type RawOps = Items<RawOp>;

/// A program as its file spells it, before any rule is checked. Where it says whether outputs may overlap inputs,
/// `overlap` is that text.
#[derive(Drop)]
pub struct RawProgram {
    pub name: Text,
    pub returns: RawParams,
    pub arguments: RawParams,
    pub body: RawOps,
    pub overlap: Option<Text>,
}
