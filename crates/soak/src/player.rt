// A machine with its banks, and calls on it.
use crate::call::some_call;
use crate::difference::Difference;
use crate::subject::Subject;
use crate::tally::Tally;
use crate::twin::Twin;
use bench::Call;
use engine::{EngineFault, LONGEST_RUN, Lines, Machine};
use instructions::Side;
use numbers::Numbers;
use std::array;

const CALLS: u64 = 2_000;

// After so many calls every port is compared.
const BETWEEN: u64 = 16;

// A difference, and the number of the call after which it was found.
#[derive(Clone, Copy)]
pub(crate) struct Finding {
    pub(crate) call: u64,
    pub(crate) difference: Difference,
}

#[derive(Drop)]
pub(crate) struct Player {
    machine: Machine,
    left: Twin,
    right: Twin,
    tally: Tally,
}

fn some_registers(numbers: &mut Numbers) -> [u8; 16] {
    array::from_fn(|_| numbers.next_byte())
}

// Whether a run answers as it should: all its cycles, or a refusal if it is too long.
fn is_answer(cycles: usize, finished: usize, fault: Option<EngineFault>) -> bool {
    if cycles > LONGEST_RUN {
        (finished, fault) == (0, Some(EngineFault::RunLength))
    } else {
        (finished, fault) == (cycles, None)
    }
}

impl Player {
    // `missed` is a left port whose drives do not come to the bank to compare with.
    pub(crate) fn new(numbers: &mut Numbers, missed: Option<u8>) -> Player {
        Player {
            machine: Machine::new(some_registers(numbers)),
            left: Twin::new(numbers, missed),
            right: Twin::new(numbers, None),
            tally: Tally::default(),
        }
    }

    pub(crate) fn tally(&self) -> Tally {
        self.tally
    }

    // As `Bench::drive`, over twins: a type for two sides of either kind would take more lines than these arms.
    fn drive(&mut self, side: Side, port: u8, value: u8) {
        match side {
            Side::Left => self.left.drive(port, value),
            Side::Right => self.right.drive(port, value),
        }
    }

    fn cycle(&mut self, code: &[u8], lines: Lines) -> Result<(), Difference> {
        self.tally.cycles = self.tally.cycles.saturating_add(1);
        self.machine
            .cycle(code, &mut self.left.bank, &mut self.right.bank, lines)
            .map_err(Difference::Refused)
    }

    fn run(&mut self, code: &[u8], cycles: usize) -> Result<(), Difference> {
        let (finished, fault) = self
            .machine
            .run(code, &mut self.left.bank, &mut self.right.bank, cycles);
        self.tally.cycles = self.tally.cycles.saturating_add(finished as u64);
        if cycles > LONGEST_RUN {
            self.tally.refused_runs = self.tally.refused_runs.saturating_add(1);
        }
        if is_answer(cycles, finished, fault) {
            Ok(())
        } else {
            Err(Difference::Run { cycles, finished })
        }
    }

    fn make(&mut self, code: &[u8], call: Call) -> Result<(), Difference> {
        self.tally.calls = self.tally.calls.saturating_add(1);
        match call {
            Call::Drive { side, port, value } => {
                self.drive(side, port, value);
                Ok(())
            }
            Call::Cycle(lines) => self.cycle(code, lines),
            Call::Run { cycles } => self.run(code, cycles),
            // what the machine and the banks hold is compared after every call
            Call::State => Ok(()),
        }
    }

    // Whether each port of both banks agrees with its twin in the withheld bits.
    fn compare_banks(&mut self, subject: &Subject<'_>) -> Result<(), Difference> {
        self.tally.ports = self.tally.ports.saturating_add(512);
        let changed = self.left.changed().saturating_add(self.right.changed());
        self.tally.changed = self.tally.changed.saturating_add(changed);
        self.left.compare(Side::Left, &subject.left)?;
        self.right.compare(Side::Right, &subject.right)
    }

    // Makes a call and compares the answer, the machine and, now and then, the banks.
    fn try_call(
        &mut self,
        subject: &Subject<'_>,
        number: u64,
        call: Call,
    ) -> Result<(), Difference> {
        self.make(subject.code, call)?;
        self.tally.registers = self.tally.registers.saturating_add(16);
        subject.compare(&self.machine)?;
        if number % BETWEEN == 0 {
            self.compare_banks(subject)?;
        }
        Ok(())
    }

    // Makes calls up to the first difference. The calls have the numbers 1 to 2,000.
    pub(crate) fn play(
        &mut self,
        subject: &Subject<'_>,
        numbers: &mut Numbers,
    ) -> Result<(), Finding> {
        for number in 1..CALLS + 1 {
            let call = some_call(numbers, &self.machine);
            self.try_call(subject, number, call)
                .map_err(|difference| Finding {
                    call: number,
                    difference,
                })?;
        }
        Ok(())
    }
}
