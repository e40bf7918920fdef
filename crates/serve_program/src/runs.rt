// What a run takes, and what its error is to the user.
ghost use Rattle.std.specs.Prelude.{◌≡◌, ◌≤◌, IfErr, IfOk, map};
ghost use Rattle.std.specs.Rc.{rc_slice_items};
ghost use Rattle.serve_arguments.specs.Capacities.{IsGiven};
ghost use Rattle.serve_program.specs.Endings.{cached_by, fault_by_live, fault_by_run};

use frame_session::{Capacity as Cached, LiveFault, RunFault, Settings};
use serve_arguments::{Capacity, Fault};
use std::alloc::Global;
use std::rc::RcSlice;
use vp8_tables::Tables;

/// What requests are answered over: the settings of the session, and the files of its sources, 1 to 8.
#[derive(Drop)]
pub struct Over<'a, B> {
    pub settings: Settings,
    pub sources: &'a [B],
}

/// The bytes of each of these, to be shared.
pub fn shared(alloc: Global, all: Vec<Vec<u8>>) -> Result<Vec<RcSlice<u8>>, Fault<'static>>
    ensures shared { IfOk result (λ files. map rc_slice_items files.items ≡ map (λ bytes. bytes.items) all.items) }
    ensures fault { IfErr result (λ fault. fault ≡ Fault.NoMemory) }
{
    let mut files = Vec::new(alloc);
    for bytes in all {
        let file = RcSlice::from_vec(bytes).map_err(|_| Fault::NoMemory)?;
        files.push(file).map_err(|_| Fault::NoMemory)?;
    }
    Ok(files)
}

/// The settings of a session with this capacity.
pub fn settings_with(tables: Tables, capacity: Capacity) -> Settings
    requires { IsGiven capacity }
    ensures tables { result.tables ≡ tables }
    ensures capacity { result.capacity ≡ cached_by capacity }
    ensures range { (1 ≤ result.capacity.states) × (result.capacity.states ≤ 4096) }
{
    let capacity = match capacity {
        Capacity::States(states) => Cached::of_states(states),
        Capacity::Bytes(bytes) => Cached::of_bytes(bytes),
    };
    Settings { tables, capacity }
}

/// The error of a run for the user.
pub fn run_fault(fault: RunFault) -> Fault<'static>
    ensures { result ≡ fault_by_run fault }
{
    match fault {
        RunFault::Source { source, fault } => Fault::Input { source, fault },
        RunFault::Write => Fault::CannotWrite,
        RunFault::NoMemory => Fault::NoMemory,
    }
}

/// The error of a live run for the user, who names its requests `path`.
pub fn live_fault(fault: LiveFault, path: &str) -> Fault<'_>
    ensures { result ≡ fault_by_live path.entry fault }
{
    match fault {
        LiveFault::Source { source, fault } => Fault::Input { source, fault },
        LiveFault::Read => Fault::CannotRead(path),
        LiveFault::TooLong | LiveFault::Endless => Fault::TooLong(path),
        LiveFault::Write => Fault::CannotWrite,
        LiveFault::NoMemory => Fault::NoMemory,
    }
}
