// Calls without a pattern.
use bench::Call;
use effects::selector;
use engine::{LONGEST_RUN, Lines, Machine};
use instructions::Side;
use numbers::Numbers;

fn selected(machine: &Machine, side: Side) -> u8 {
    machine.registers[selector(side).number() as usize]
}

// Half of the drives go to the port that the machine has selected.
fn some_drive(numbers: &mut Numbers, machine: &Machine) -> Call {
    let side = if numbers.next_bit() {
        Side::Left
    } else {
        Side::Right
    };
    let port = if numbers.next_bit() {
        selected(machine, side)
    } else {
        numbers.next_byte()
    };
    Call::Drive {
        side,
        port,
        value: numbers.next_byte(),
    }
}

// Up to 200 cycles; now and then the longest run, or one that is too long by one.
fn some_length(numbers: &mut Numbers) -> usize {
    match numbers.next_number() % 200 {
        0 => LONGEST_RUN,
        1..=4 => LONGEST_RUN + 1,
        _ => (numbers.next_number() % 201) as usize,
    }
}

pub(crate) fn some_call(numbers: &mut Numbers, machine: &Machine) -> Call {
    match numbers.next_number() % 3 {
        0 => some_drive(numbers, machine),
        1 => Call::Cycle(Lines {
            reset: numbers.next_number() % 50 == 0,
            halt: numbers.next_number() % 20 == 0,
        }),
        _ => Call::Run {
            cycles: some_length(numbers),
        },
    }
}
