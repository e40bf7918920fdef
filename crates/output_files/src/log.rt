// The calls of a save so far.
ghost use Rattle.std.specs.Prelude.{◌≡◌, ◌<◌, ◌++◌, ◌∷◌, [], IfErr, OnOk, length};
ghost use Rattle.std.specs.IoError.{error_kind};
ghost use Rattle.output_files.specs.Logs.{done, steps_of};
ghost use Rattle.output_files.specs.Steps.{most_steps};
ghost use Rattle.output_files.specs.Steps.Step.{Failed};

use crate::saving::Call;
use arrayvec::ArrayVec;
use std::io::{self, ErrorKind};

/// A call that was made, and the kind of its error.
#[derive(Clone, Copy, Debug, Default)]
struct Logged {
    call: Call,
    error: Option<ErrorKind>,
}

/// The calls of a save on files whose bytes are not known, in order.
#[derive(Drop)]
pub struct Log {
    calls: ArrayVec<Logged, 4>,
}

impl Log {
    /// No calls.
    pub fn new() -> Log
        ensures { steps_of result ≡ [] }
    {
        Log {
            calls: ArrayVec::new(),
        }
    }

    /// Adds a call that ended well.
    pub fn done(&mut self, call: Call)
        requires room { length (steps_of self.old) < most_steps }
        ensures { steps_of self.new ≡ steps_of self.old ++ done call ∷ [] }
    {
        self.calls.push(Logged { call, error: None });
    }

    /// Adds a call that failed.
    pub fn failed(&mut self, call: Call, error: io::Error)
        requires room { length (steps_of self.old) < most_steps }
        ensures { steps_of self.new ≡ steps_of self.old ++ Failed call (error_kind error) ∷ [] }
    {
        self.calls.push(Logged {
            call,
            error: Some(error.kind()),
        });
    }

    /// Adds a call with its result, and returns the result.
    pub fn ended(&mut self, call: Call, ended: io::Result<()>) -> io::Result<()>
        requires room { length (steps_of self.old) < most_steps }
        ensures done { OnOk result (steps_of self.new ≡ steps_of self.old ++ done call ∷ []) }
        ensures failed { IfErr result (λ error. steps_of self.new ≡ steps_of self.old ++ Failed call (error_kind error) ∷ []) }
    {
        match ended {
            Ok(()) => {
                self.done(call);
                Ok(())
            }
            Err(error) => {
                self.failed(call, error);
                Err(error)
            }
        }
    }
}
