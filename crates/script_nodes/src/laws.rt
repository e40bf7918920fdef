//! Laws over the definitions of this crate: each is the contract of a function that does nothing.

ghost use Rattle.std.specs.Prelude.{◌≡◌, [], ◌∷◌, codes};
ghost use Rattle.script_nodes.specs.declared.nodes.Node.TheVariants as nodes;
ghost use Rattle.script_nodes.specs.Laws.{PartsAreSplices, TracesAreFollowed, WorkedSplice, WorkedParts, WorkedPartFaults, WorkedFaults, WorkedWeights, RampsMeetTheirEnds, ShownSamplesAreSame};
ghost use Rattle.script_nodes.specs.NodeSteps.{StepsAreOfNodes};
ghost use Rattle.script_nodes.specs.Written.{TextsAreReadBack, script_text};

/// A frame of a script is the frame that its trace names, with the steps of the trace applied.
pub fn traces_are_followed()
    ensures { TracesAreFollowed }
{}

/// A clip that is spliced with its source, and a source that is spliced with another: the text, the length and the
/// origins of frames.
pub fn worked_splice()
    ensures { WorkedSplice }
{}

/// Parts of a clip, of which one is cut short and one has no frame: the text, the length and the origins of frames; and texts that are
/// not parts.
pub fn worked_parts()
    ensures parts { WorkedParts }
    ensures faults { WorkedPartFaults }
{}

/// Parts are the splices of trims.
pub fn parts_are_splices()
    ensures { PartsAreSplices }
{}

/// Texts that are not scripts.
pub fn worked_faults()
    ensures { WorkedFaults }
{}

/// The text of a script is read as the same script.
pub fn texts_are_read_back()
    ensures { TextsAreReadBack }
{}

/// The texts of worked scripts.
pub fn worked_texts()
    ensures none { script_text [] ≡ codes "-" }
    ensures two { script_text (nodes.Trim 0 3 7 ∷ nodes.Splice 1 0 ∷ []) ≡ codes "trim 0 3 7;splice 1 0" }
{}

/// Samples at weights.
pub fn worked_weights()
    ensures { WorkedWeights }
{}

/// A ramp begins with its first weight and ends with its last one.
pub fn ramps_meet_their_ends()
    ensures { RampsMeetTheirEnds }
{}

/// Pictures that show the same have the same shown samples, row by row.
pub fn shown_samples_are_same()
    ensures { ShownSamplesAreSame }
{}

/// The steps of the nodes of a frame are the steps of its origin.
pub fn steps_are_of_nodes()
    ensures { StepsAreOfNodes }
{}
