ghost use Rattle.std.specs.Prelude.{◌≡◌, codes};
ghost use Rattle.script_nodes.specs.Faults.{script_fault_word, apply_fault_word};

use thiserror::Error;

/// Why a text is not a script, in the order of the checks, each over the whole text.
#[derive(Clone, Copy, Debug, PartialEq, Eq, Error)]
pub enum ScriptFault {
    /// An unknown word, a wrong number of words, a word that is not a number, or an empty node.
    #[error("the text is not a list of nodes")]
    Syntax,
    /// More than 16 nodes.
    #[error("the script has more than 16 nodes")]
    Nodes,
    /// A node that uses a node that is not below its own number, or a source that does not exist.
    #[error("a node uses a node that is not before it, or a source that does not exist")]
    Reference,
    /// A number that is not allowed at its position.
    #[error("a number of the script is not allowed")]
    Number,
    /// Out of memory for the nodes.
    #[error("out of memory for the nodes")]
    NoMemory,
}

impl ScriptFault {
    /// The error's name.
    pub const fn word(self) -> &'static str
        ensures { result.now ≡ script_fault_word self }
    {
        match self {
            ScriptFault::Syntax => "Syntax",
            ScriptFault::Nodes => "Nodes",
            ScriptFault::Reference => "Reference",
            ScriptFault::Number => "Number",
            ScriptFault::NoMemory => "NoMemory",
        }
    }
}

/// A crop reaches past the size of the picture that it is applied to.
#[derive(Clone, Copy, Debug, PartialEq, Eq, Error)]
#[error("a crop reaches past the picture")]
pub struct CropOutside;

impl CropOutside {
    /// The error's name.
    pub const fn word(self) -> &'static str
        ensures { result.now ≡ codes "CropOutside" }
    {
        "CropOutside"
    }
}

/// Why a trace makes no picture, in the order of the checks.
#[derive(Clone, Copy, Debug, PartialEq, Eq, Error)]
pub enum ApplyFault {
    /// A crop reaches past the size of the picture that it is applied to.
    #[error("a crop reaches past the picture")]
    CropOutside,
    /// Out of memory for the samples, or a plane cannot be shared again.
    #[error("out of memory for the picture")]
    NoMemory,
}

impl ApplyFault {
    /// The error's name.
    pub const fn word(self) -> &'static str
        ensures { result.now ≡ apply_fault_word self }
    {
        match self {
            ApplyFault::CropOutside => "CropOutside",
            ApplyFault::NoMemory => "NoMemory",
        }
    }
}
