//! What a run comes to, before anything of it is written.

use crate::sheets::Sheet;
use ss_join::Cut;
use ss_run::RunId;
use ss_units::Text;

/// How a run ended.
#[derive(Drop)]
pub enum End {
    /// It came to its end: the time that its final line tells, in picoseconds, and what is put behind it.
    Complete { time: u64, sheets: Vec<Sheet> },
    /// It had more checkpoints than a run may have, and was stopped behind them.
    Stopped,
}

/// What a run prints and puts: its cuts, in order, and its end.
#[derive(Drop)]
pub struct Printed {
    pub run: RunId,
    /// What the names of the checkpoints begin with.
    pub prefix: Text,
    pub cuts: Vec<Cut>,
    pub end: End,
}
