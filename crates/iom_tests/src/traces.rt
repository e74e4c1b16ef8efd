//! Traces, and what is reported of their lines.

use crate::platforms::MAPPED;
use iom_check::{Rules, Scoring, Style};
use iom_core::Platform;
use iom_judge::Judge;
use iom_mem::Ram;
use iom_tool::{WatchedReader, WatchedWriter};
use iom_traces::{Trial, judge_trace};
use std::alloc::Global;
use std::test::Fail;

const RULES: Rules = Rules {
    fails_if_stale: false,
    looks_at_fences: false,
    fails_if_unsettled: false,
    is_strict: false,
    style: Style::Text,
};

// A platform whose memory ends behind the frame at 0x80011000, so that its copies are small.
fn mapped(alloc: Global) -> Result<Platform, Fail> {
    let mut ram = Ram::new(alloc, 0x8000_0000, 0x1_2000)?;
    for (addr, word) in &MAPPED {
        let _is_inside = ram.write(*addr, &word.to_le_bytes());
    }
    Ok(Platform::new(alloc, ram, Vec::new(alloc))?)
}

// What is reported of a trace.
fn reported(alloc: Global, hides: bool, trace: &[u8]) -> Result<Vec<u8>, Fail> {
    let judge = Judge::new(alloc, mapped(alloc)?)?;
    let mut trial = Trial::new(alloc, judge, hides, Scoring::new(RULES, None, 0));
    let mut trace = trace;
    let mut text = Vec::new(alloc);
    {
        let mut reader = WatchedReader::new(&mut trace);
        let mut writer = WatchedWriter::new(&mut text);
        judge_trace(&mut trial, &mut reader, &mut writer)?;
    }
    Ok(text)
}

const SEEN: &[u8] = b"reg write ddtp 0x20000402
dma read 5 0x40201abc 1 # => 11
dma read 5 0x40201abc 1 # => 11 at 0x80010abc
dma read 5 0x40201abc 1 # => at 0x80010abc
dma read 5 0x40201abc 1
dma read 5 0x40201abc 1 # => 12
dma read 5 0x40201abc 1 # => at 0x80010abd
dma read 5 0x40202abc 1 # => denied 12
store 0x80004008 8 0
dma read 5 0x40201abc 1 # => 22
";

const SEEN_TOLD: &[u8] = b"line 6: dma read 5 0x40201abc 1: seen 12, allowed: 11 at 0x80010abc
line 7: dma read 5 0x40201abc 1: seen at 0x80010abd, allowed: 11 at 0x80010abc
line 8: dma read 5 0x40202abc 1: seen denied 12, allowed: denied 13
line 10: dma read 5 0x40201abc 1: seen 22, allowed: denied 13, 11 at 0x80010abc
3 passed, 4 failed
";

// A step passes if its comment is an answer, or a place, that some IOMMU may show; else all possible answers are told.
#[test]
fn refused_lines_tell_what_is_allowed(rt: HostRuntime) -> Result<(), Fail> {
    assert_eq!(rt; reported(rt.alloc(), false, SEEN)?.as_slice(), SEEN_TOLD);
    Ok(())
}

const UNCLEAR: &[u8] = b"reg write ddtp 0x20000402
dma read 5 0x40201abc 1 # => granted
dma read 5 0x40201abc 1 # => 11 at here
dma read 5 0x40201abc 1 # => 11 at
dma read 5 0x40201abc 1 # => 11 12
dma read 5 0x40201abc # => 11
show pte 0x80004008 # => pte
# => done
";

const UNCLEAR_TOLD: &[u8] = b"line 2: dma read 5 0x40201abc 1: seen granted, which is no answer
line 3: dma read 5 0x40201abc 1: seen 11 at here, which is no answer
line 4: dma read 5 0x40201abc 1: seen 11 at, which is no answer
line 5: dma read 5 0x40201abc 1: seen 11 12, which is no answer
line 6: dma read 5 0x40201abc -> bad: LEN is missing
line 7: note: what was seen is on a line that isn't one step
line 8: note: what was seen is on a line that isn't one step
0 passed, 5 failed
";

#[test]
fn unclear_and_stray_comments_are_told(rt: HostRuntime) -> Result<(), Fail> {
    assert_eq!(rt;
        reported(rt.alloc(), false, UNCLEAR)?.as_slice(),
        UNCLEAR_TOLD
    );
    Ok(())
}

// Each write goes to the first frame of memory, or to another.
const UNDECIDED: &[u8] = b"reg write ddtp 0x20000402
store 0x80004008 8 0x200000d7
dma read 5 0x40201abc 1
store 0x80004008 8 0x200044d7
dma write 5 0x40201000 01
dma write 5 0x40201001 01
dma write 5 0x40201002 01
dma write 5 0x40201003 01
dma write 5 0x40201004 01
dma read 5 0x40201004 1 # => 01 at 0x80000004
dma read 5 0x40201004 1 # => 02
dma write 5 0x40201005 01
dma write 5 0x40201006 01
dma write 5 0x40201007 01
dma read 5 0x40201abc 1 # => 22
";

const UNDECIDED_TOLD: &[u8] =
    b"line 11: dma read 5 0x40201004 1: seen 02, allowed: 00 at 0x80011004, 01 at 0x80000004
line 14: dma write 5 0x40201007 01: undecided, too many states are possible
1 passed, 2 failed
";

// Behind a step with more than 64 possible states no line is judged.
#[test]
fn undecided_step_ends_a_trace(rt: HostRuntime) -> Result<(), Fail> {
    assert_eq!(rt;
        reported(rt.alloc(), false, UNDECIDED)?.as_slice(),
        UNDECIDED_TOLD
    );
    Ok(())
}

// The page is unmapped; an IOTINVAL.VMA and an IOFENCE.C stand in the queue.
const QUEUED: &[u8] = b"reg write ddtp 0x20000402
reg write cqb 0x20001401
reg write cqcsr 1
dma read 5 0x40201abc 1 # => 11
store 0x80004008 8 0
put 0x80005000 cmd vma
put 0x80005010 cmd fence
reg write cqt 2
reg read cqh # => 0x2
dma read 5 0x40201abc 1 # => 11
";

const SHOWN_TOLD: &[u8] = b"line 9: reg read cqh: seen 0x2, allowed: 0x0
2 passed, 1 failed
";

const HIDDEN_TOLD: &[u8] = b"line 10: dma read 5 0x40201abc 1: seen 11, allowed: denied 13
2 passed, 1 failed
";

// If commands may be hidden, both may have been carried out when cqh is read.
#[test]
fn hidden_commands_are_allowed_for(rt: HostRuntime) -> Result<(), Fail> {
    assert_eq!(rt; reported(rt.alloc(), false, QUEUED)?.as_slice(), SHOWN_TOLD);
    assert_eq!(rt; reported(rt.alloc(), true, QUEUED)?.as_slice(), HIDDEN_TOLD);
    Ok(())
}

// The steps of a line are taken until one isn't carried out.
const SEVERAL: &[u8] = b"reg write ddtp 0x20000402
reg write cqb 0x20001401
reg write cqcsr 1
dma read 5 0x40201abc 1 # => 11
store 0x80004008 8 0
put 0x80005000 cmd vma
put 0x80005010 cmd fence # => done
reg write cqt 2
cmd run 9
reg read cqh # => 0x2
dma read 5 0x40201abc 1 # => 11
";

const SEVERAL_TOLD: &[u8] = b"line 7: note: what was seen is on a line that isn't one step
line 11: dma read 5 0x40201abc 1: seen 11, allowed: denied 13
2 passed, 1 failed
";

#[test]
fn lines_of_several_steps_are_taken(rt: HostRuntime) -> Result<(), Fail> {
    assert_eq!(rt;
        reported(rt.alloc(), false, SEVERAL)?.as_slice(),
        SEVERAL_TOLD
    );
    Ok(())
}
