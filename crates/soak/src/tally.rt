// What was compared.
use std::fmt;

#[derive(Clone, Copy, Default)]
pub(crate) struct Tally {
    pub(crate) calls: u64,
    pub(crate) cycles: u64,
    pub(crate) refused_runs: u64,
    pub(crate) registers: u64,
    pub(crate) ports: u64,
    // the ports that a program had changed, in granted bits
    pub(crate) changed: u64,
}

impl Tally {
    pub(crate) fn add(&mut self, other: Tally) {
        self.calls = self.calls.saturating_add(other.calls);
        self.cycles = self.cycles.saturating_add(other.cycles);
        self.refused_runs = self.refused_runs.saturating_add(other.refused_runs);
        self.registers = self.registers.saturating_add(other.registers);
        self.ports = self.ports.saturating_add(other.ports);
        self.changed = self.changed.saturating_add(other.changed);
    }
}

impl fmt::Display for Tally {
    fn fmt<W: fmt::Write>(&self, f: &mut fmt::Formatter<W>) -> fmt::Result {
        let calls = self.calls;
        let cycles = self.cycles;
        let refused_runs = self.refused_runs;
        let registers = self.registers;
        let ports = self.ports;
        let changed = self.changed;
        write!(
            f,
            "calls {calls} cycles {cycles} refused runs {refused_runs} registers {registers} ports {ports} changed {changed}"
        )
    }
}
