//! The first stage that requests with processes get, from the device's context on.

use crate::platforms::memory;
use iom_bits::{Features, Number};
use iom_ddt::{Context, ContextFields, DirectoryWord, MsiTable, Refusal};
use iom_mem::Ram;
use iom_pdt::{
    Depth, First, Process, ProcessContext, ProcessDirectory, Processes, Unlocated, class_in,
    first_of, locate,
};
use iom_walk::Class;
use std::test::Fail;

// Tables for one, two and three levels; a second stage at 0x80020000 that leads 1 GiB from 0 on to 0x80000000, one at 0x80024000 whose table
// is outside memory, and one at 0x80028000 that leads nowhere.
const WORDS: &[(u64, u64)] = &[
    (0x8000_6000, 0x9001),
    (0x8000_6008, 0x8000_0000_0008_0002),
    (0x8000_6030, 0x9001),
    (0x8000_6038, 0x8000_0000_0008_0002),
    (0x8000_6050, 0x9009),
    (0x8000_6060, 0x9003),
    (0x8000_6068, 0x8000_0000_0008_0002),
    (0x8000_6070, 0x9007),
    (0x8000_6078, 0x8000_0000_0008_0002),
    (0x8000_6080, 0x9003),
    (0x8000_6090, 0x9001),
    (0x8000_6098, 0x7000_0000_0008_0002),
    (0x8000_7008, 0x2000_1801),
    (0x8000_7010, 0x2000_1803),
    (0x8000_7018, 0x2400_0001),
    (0x8000_8008, 0x2000_1c01),
    (0x8003_6030, 0x9001),
    (0x8003_6038, 0x8000_0000_0000_0030),
    (0x8002_0000, 0x2000_00d7),
    (0x8002_4000, 0x2400_0001),
];

// What a device's context says of processes: nothing, Bare, or a directory's depth and root, the second stage's root if there is one, and DPE.
enum Said {
    Without,
    Bare,
    Listed(Depth, u64, Option<u64>, bool),
}

// What a request gets.
#[derive(Clone, Copy, PartialEq)]
enum Given {
    Disallowed,
    Own,
    Bare,
    // PSCID and the root of its first stage.
    Process(u32, u64, Class),
    SecondOutside,
    Guest(u64),
    Refused(Refusal),
}

const PD8: Said = Said::Listed(Depth::One, 0x8_0006, None, false);

const PD8_DEFAULT: Said = Said::Listed(Depth::One, 0x8_0006, None, true);

const PD17: Said = Said::Listed(Depth::Two, 0x8_0007, None, false);

const PD20: Said = Said::Listed(Depth::Three, 0x8_0008, None, false);

// The directory of a guest, under each of the second stages.
const GUEST: Said = Said::Listed(Depth::One, 0x36, Some(0x8_0020), false);

const GUEST_OUTSIDE: Said = Said::Listed(Depth::One, 0x36, Some(0x8_0024), false);

const GUEST_UNMAPPED: Said = Said::Listed(Depth::One, 0x36, Some(0x8_0028), false);

const LOW_BITS_OF_TA: Refusal = Refusal::Reserved {
    which: DirectoryWord::Ta,
    high: 11,
    low: 3,
};

const LOW_BITS_OF_ENTRY: Refusal = Refusal::Reserved {
    which: DirectoryWord::Entry,
    high: 9,
    low: 1,
};

// The process id of a request, if it has one, and whether it asks as a supervisor.
#[rattlefmt::skip]
const CASES: &[(Said, Option<(u64, bool)>, Given)] = &[
    (PD8, Some((3, false)), Given::Process(9, 0x8_0002, Class::User)),
    (PD8, None, Given::Bare),
    (PD8, Some((3, true)), Given::Disallowed),
    (PD8, Some((6, true)), Given::Process(9, 0x8_0002, Class::Supervisor)),
    (PD8, Some((6, false)), Given::Process(9, 0x8_0002, Class::User)),
    (PD8, Some((7, true)), Given::Process(9, 0x8_0002, Class::SupervisorUser)),
    (PD8, Some((8, true)), Given::Process(9, 0, Class::User)),
    (PD8, Some((0x100, false)), Given::Disallowed),
    (PD8, Some((4, false)), Given::Refused(Refusal::Invalid)),
    (PD8, Some((5, false)), Given::Refused(LOW_BITS_OF_TA)),
    (PD8, Some((9, false)), Given::Refused(Refusal::Mode(7))),
    (PD8_DEFAULT, None, Given::Process(9, 0x8_0002, Class::User)),
    (PD8_DEFAULT, Some((4, false)), Given::Refused(Refusal::Invalid)),
    (PD17, Some((0x103, false)), Given::Process(9, 0x8_0002, Class::User)),
    (PD17, Some((0x2_0103, false)), Given::Disallowed),
    (PD17, Some((0x204, false)), Given::Refused(LOW_BITS_OF_ENTRY)),
    (PD17, Some((0x305, false)), Given::Refused(Refusal::Outside)),
    (PD17, Some((0x403, false)), Given::Refused(Refusal::Invalid)),
    (PD20, Some((0x2_0103, false)), Given::Process(9, 0x8_0002, Class::User)),
    (PD20, Some((0x103, false)), Given::Refused(Refusal::Invalid)),
    (GUEST, Some((3, false)), Given::Process(9, 0x30, Class::User)),
    (GUEST_OUTSIDE, Some((3, false)), Given::SecondOutside),
    (GUEST_UNMAPPED, Some((3, false)), Given::Guest(0x3_6000)),
    (Said::Without, Some((3, false)), Given::Disallowed),
    (Said::Without, Some((0, false)), Given::Disallowed),
    (Said::Without, None, Given::Own),
    (Said::Bare, Some((0xf_ffff, true)), Given::Bare),
];

// A device's context with this second stage.
fn context_with(second: Option<u64>) -> Option<Context> {
    let msi = MsiTable {
        ppn: 0,
        mask: 0,
        pattern: 0,
        flat: false,
    };
    Context::new(ContextFields {
        gppn: second.unwrap_or(0),
        ppn: 0,
        pscid: 0,
        gscid: 7,
        gmode: if second.is_some() { 8 } else { 0 },
        mode: 0,
        custom: 0,
        dtf: false,
        tav: false,
        msi,
    })
}

fn processes_of(said: &Said) -> Processes {
    match said {
        Said::Without => Processes::Without,
        Said::Bare => Processes::Bare,
        Said::Listed(depth, root, _, default) => Processes::Listed {
            directory: ProcessDirectory {
                depth: *depth,
                root: Number::low(*root),
            },
            default: *default,
        },
    }
}

fn led(ram: &Ram, context: &Context, said: &Said, process: &Option<Process>) -> Given {
    match first_of(&processes_of(said), process) {
        First::Disallowed => Given::Disallowed,
        First::Own => Given::Own,
        First::Bare => Given::Bare,
        First::Listed { directory, id } => located_by(
            locate(ram, Features::none(), context, &directory, id),
            process,
        ),
    }
}

fn located_by(found: Result<ProcessContext, Unlocated>, process: &Option<Process>) -> Given {
    match found {
        Ok(found) => match class_in(process, &found) {
            Some(class) => Given::Process(found.fields.pscid, found.fields.ppn, class),
            None => Given::Disallowed,
        },
        Err(Unlocated::TooWide) => Given::Disallowed,
        Err(Unlocated::SecondOutside) => Given::SecondOutside,
        Err(Unlocated::Guest(table)) => Given::Guest(table),
        Err(Unlocated::Refused(why)) => Given::Refused(why),
    }
}

// The index of the first case that is otherwise.
fn otherwise(ram: &Ram) -> Option<usize> {
    for (i, (said, asked, wanted)) in CASES.iter().enumerate() {
        let process = asked.map(|(id, supervisor)| Process {
            id: Number::low(id),
            supervisor,
        });
        let second = match said {
            Said::Listed(_, _, second, _) => *second,
            Said::Without | Said::Bare => None,
        };
        let Some(context) = context_with(second) else {
            return Some(i);
        };
        if led(ram, &context, said, &process) != *wanted {
            return Some(i);
        }
    }
    None
}

#[test]
fn requests_get_first_stages(rt: HostRuntime) -> Result<(), Fail> {
    let ram = memory(rt.alloc(), WORDS)?;
    assert_eq!(rt; otherwise(&ram), None);
    Ok(())
}
