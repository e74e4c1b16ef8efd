//! Each call that takes memory, with ample memory and, by tests/refused_memory.sh, with one allocation refused: that call then returns its
//! own fault, with which the test ends. Allocations made before let those of its calls be the thirteenth to the fifteenth.

use crate::blk_requests::with_disk;
use crate::devices::devices;
use crate::platforms::{MAPPED, memory, read, started, stored, take, written};
use crate::playing;
use iom_account::{History, explain};
use iom_asm::{Item, assemble, list, load, upgrade};
use iom_bits::{Features, Kind};
use iom_blk::Blk;
use iom_cache::{ContextCache, Place, TransCache};
use iom_core::{Answer, Platform, Request, Step, Warrant};
use iom_every::{Entry, Held};
use iom_held::{HeldEntries, Kept};
use iom_judge::{Judge, Seen, Verdict};
use iom_mem::Ram;
use iom_messages::Messages;
use iom_owed::Holdings;
use iom_saved::{
    SavedWords, bytes_of, put_board, put_history, put_memory, take_board, take_memory, words_of,
};
use iom_tool::Trace;
use std::alloc::{AllocError, Global};
use std::test::Fail;

// The index of the first fact that doesn't hold.
fn first_wrong(facts: &[bool]) -> Option<usize> {
    for (i, fact) in facts.iter().enumerate() {
        if !*fact {
            return Some(i);
        }
    }
    None
}

// Makes `count` allocations.
fn spend(alloc: Global, count: usize) -> Result<(), AllocError> {
    for _ in 0..count {
        let _spare = Vec::from_slice(alloc, &[0_u8])?;
    }
    Ok(())
}

const BASE: u64 = 0x8000_0000;

// Whether the answers are those of a read of stored bytes.
fn are_expected(answers: &[Answer]) -> bool {
    match answers {
        [Answer::Done, Answer::Done, Answer::Bytes(bytes)] => {
            bytes.as_slice() == [1, 2, 3, 4, 5, 6, 7, 8].as_slice()
        }
        _ => false,
    }
}

const READ_STORED: [Step; 3] = [
    Step::Store {
        addr: BASE,
        size: 8,
        value: 0x0807_0605_0403_0201,
    },
    Step::RegWrite {
        off: 16,
        size: 8,
        value: 1,
    },
    Step::DmaRead {
        did: 5,
        iova: BASE,
        len: 8,
    },
];

fn reads_stored(platform: &mut Platform) -> bool {
    let mut answers = [Answer::Idle, Answer::Idle, Answer::Idle];
    platform.run(&READ_STORED, &mut answers);
    are_expected(&answers) && platform.ram().word(BASE) == Some(0x0807_0605_0403_0201)
}

// A platform takes the allocation of its memory, then that of each of its caches, and that of its messages.
#[test]
fn device_reads_what_the_hart_stored(rt: HostRuntime) -> Result<(), Fail> {
    spend(rt.alloc(), 12)?;
    let mut platform = started(rt.alloc(), &[])?;
    assert!(rt; reads_stored(&mut platform));
    Ok(())
}

// A cache takes one allocation, and so does a trace.
#[test]
fn caches_and_a_trace_are_made(rt: HostRuntime) -> Result<(), Fail> {
    spend(rt.alloc(), 12)?;
    let trans = TransCache::new(rt.alloc())?;
    let contexts = ContextCache::new(rt.alloc())?;
    let trace = Trace::new(rt.alloc())?;
    let facts = [
        matches!(trans.place(0), Place::Beyond),
        matches!(contexts.place(0), Place::Beyond),
        trace.entry(0).is_none(),
    ];
    assert_eq!(rt; first_wrong(&facts), None);
    Ok(())
}

#[test]
fn messages_are_made(rt: HostRuntime) -> Result<(), Fail> {
    spend(rt.alloc(), 12)?;
    let messages = Messages::new(rt.alloc(), None)?;
    assert!(rt; messages.get(0).is_none());
    Ok(())
}

fn explained(alloc: Global) -> Result<Option<Warrant>, Fail> {
    spend(alloc, 8)?;
    let start = Platform::new(alloc, memory(alloc, &MAPPED)?, Vec::new(alloc))?;
    let steps = [written(16, 8, 0x2000_0402), read(0x4020_1abc)];
    Ok(explain(alloc, &start, &steps, 1)?)
}

// `explain` of a step takes one copy of the platform, of four allocations.
#[test]
fn copy_for_the_steps(rt: HostRuntime) -> Result<(), Fail> {
    let want = Warrant::Walked {
        context: 1,
        walk: 1,
        current: 1,
    };
    assert!(rt; explained(rt.alloc())? == Some(want));
    Ok(())
}

// Device 5 reads through its tables, and then its page is unmapped.
fn read_and_unmap(platform: &mut Platform) {
    let steps = [
        written(16, 8, 0x2000_0402),
        read(0x4020_1abc),
        stored(0x8000_4008, 0),
    ];
    take(platform, &steps);
}

// A platform whose device 5 has read through its tables, and whose tables map nothing any more.
fn read_once(alloc: Global) -> Result<Platform, Fail> {
    let mut platform = started(alloc, &MAPPED)?;
    spend(alloc, 8)?;
    read_and_unmap(&mut platform);
    Ok(platform)
}

fn is_done(platform: &mut Platform, step: Step) -> bool {
    platform.step(&step) == Answer::Done
}

// The byte that the device reads; None if it reads none.
fn byte_read(platform: &mut Platform) -> Option<u8> {
    match platform.step(&read(0x4020_1abc)) {
        Answer::Bytes(bytes) => bytes.as_slice().first().copied(),
        _ => None,
    }
}

// Both read through the entries that were cached when the copy was made; then each changes by itself.
fn go_apart(original: &mut Platform, copy: &mut Platform) -> Option<usize> {
    let facts = [
        byte_read(copy) == Some(0x11),
        byte_read(original) == Some(0x11),
        is_done(copy, written(16, 8, 0)),
        byte_read(copy).is_none(),
        byte_read(original) == Some(0x11),
        is_done(original, stored(0x8001_0ab8, 0x22_0000_0000)),
        byte_read(original) == Some(0x22),
        is_done(copy, written(16, 8, 0x2000_0402)),
        byte_read(copy) == Some(0x11),
    ];
    first_wrong(&facts)
}

#[test]
fn copies_go_their_own_ways(rt: HostRuntime) -> Result<(), Fail> {
    let mut original = read_once(rt.alloc())?;
    let mut copy = original.try_clone(rt.alloc())?;
    assert_eq!(rt; go_apart(&mut original, &mut copy), None);
    Ok(())
}

fn block_device(alloc: Global) -> Result<Blk, Fail> {
    let mut disk = Vec::new(alloc);
    disk.resize(1024, 7)?;
    Ok(with_disk(disk).ok_or("a disk of two sectors")?)
}

// A copy of a block device takes one allocation, that of its disk; here it is the copy of a copy of a copy.
#[test]
fn block_device_is_copied(rt: HostRuntime) -> Result<(), Fail> {
    spend(rt.alloc(), 11)?;
    let blk = block_device(rt.alloc())?;
    let first = blk.try_clone(rt.alloc())?;
    let second = first.try_clone(rt.alloc())?;
    let third = second.try_clone(rt.alloc())?;
    assert!(rt; third.disk() == blk.disk());
    Ok(())
}

fn with_device(alloc: Global) -> Result<Platform, Fail> {
    let ram = Ram::new(alloc, BASE, 0x1000)?;
    let devices = devices(alloc, 512, &[7; 512])?;
    Ok(Platform::new(alloc, ram, devices)?)
}

// The copy of a platform with a block device takes two more, of the disk and of the list; here these come after its messages'.
#[test]
fn platform_with_a_device_is_copied(rt: HostRuntime) -> Result<(), Fail> {
    spend(rt.alloc(), 3)?;
    let platform = with_device(rt.alloc())?;
    let copy = platform.try_clone(rt.alloc())?;
    assert!(rt; copy.disk(0) == platform.disk(0) && copy.disk(0).is_some());
    Ok(())
}

// An image of 1 MiB with a disk of two sectors.
const IMAGE: &[u8] =
    b"RVIOMMU1\x00\x00\x00\x80\x00\x00\x00\x00\x00\x00\x10\x00\x00\x00\x00\x00\x00\x00\x00\x00\x01\x00\x00\x00\x05\x00\x00\x00\x02\x00\x00\x00\x03\x00\x00\x00\xc0\xff\xee";

// That image in version 4.
const UPGRADED: &[u8] =
    b"RVIOMMU4\x10\x06\x06\x10\x38\x00\x00\x00\x01\x00\x00\x00\x00\x00\x00\x00\x00\x00\x00\x80\x00\x00\x00\x00\x00\x00\x10\x00\x00\x00\x00\x00\x00\x00\x00\x00\x01\x00\x00\x00\x05\x00\x00\x00\x02\x00\x00\x00\x00\x00\x00\x00\x03\x00\x00\x00\xc0\xff\xee";

fn is_loaded_after(alloc: Global, spent: usize) -> Result<bool, Fail> {
    spend(alloc, spent)?;
    let platform = load(alloc, IMAGE)?;
    Ok(matches!(platform.disk(0), Some([0xc0, 0xff, 0xee, 0, ..])))
}

// Loading takes six: the memory's, that of the list of devices, the disk's, those of the caches, and the messages'.
#[test]
fn memory_and_devices_are_loaded(rt: HostRuntime) -> Result<(), Fail> {
    assert!(rt; is_loaded_after(rt.alloc(), 12)?);
    Ok(())
}

#[test]
fn caches_are_made_for_an_image(rt: HostRuntime) -> Result<(), Fail> {
    assert!(rt; is_loaded_after(rt.alloc(), 9)?);
    Ok(())
}

// Whether an empty script is played after this number of allocations.
fn is_played_after(alloc: Global, spent: usize) -> Result<bool, Fail> {
    spend(alloc, spent)?;
    let mut script: &[u8] = b"";
    let mut answers = Vec::new(alloc);
    let played = playing::played(alloc, IMAGE, &mut script, &mut answers)?;
    Ok(played.ended.is_ok())
}

// Playing takes those of loading, and one for the trace.
#[test]
fn image_is_played(rt: HostRuntime) -> Result<(), Fail> {
    assert!(rt; is_played_after(rt.alloc(), 12)?);
    Ok(())
}

#[test]
fn caches_and_a_trace_are_made_for_a_played_image(rt: HostRuntime) -> Result<(), Fail> {
    assert!(rt; is_played_after(rt.alloc(), 8)?);
    Ok(())
}

fn is_assembled_after(alloc: Global, spent: usize) -> Result<bool, Fail> {
    spend(alloc, spent)?;
    let image = assemble(alloc, b"ram 0x80000000 0x100000\ndisk 5 2 c0ffee\n")?;
    Ok(image.as_slice() == IMAGE)
}

// Assembling this text takes six.
#[test]
fn text_is_read(rt: HostRuntime) -> Result<(), Fail> {
    assert!(rt; is_assembled_after(rt.alloc(), 12)?);
    Ok(())
}

#[test]
fn image_is_written(rt: HostRuntime) -> Result<(), Fail> {
    assert!(rt; is_assembled_after(rt.alloc(), 9)?);
    Ok(())
}

// An upgrade takes one, for the whole new image.
#[test]
fn image_is_upgraded(rt: HostRuntime) -> Result<(), Fail> {
    spend(rt.alloc(), 12)?;
    let new = upgrade(rt.alloc(), IMAGE)?;
    assert!(rt; new.as_slice() == UPGRADED);
    Ok(())
}

// A listing grows with its lines.
#[test]
fn items_are_listed(rt: HostRuntime) -> Result<(), Fail> {
    spend(rt.alloc(), 11)?;
    let ram = Ram::new(rt.alloc(), BASE, 0x1000)?;
    let listing = list(rt.alloc(), &ram, Features::none(), Item::Word, BASE, 64)?;
    assert!(rt; listing.len() == 64 * 8);
    Ok(())
}

// The first part of a platform, of memory and both caches, whose copy differs.
fn otherwise_copied(alloc: Global) -> Result<Option<usize>, Fail> {
    let platform = read_once(alloc)?;
    let ram = platform.ram().try_clone(alloc)?;
    let trans = platform.trans().try_clone(alloc)?;
    let contexts = platform.contexts().try_clone(alloc)?;
    let facts = [
        ram.base() == BASE,
        ram.size() == 0x10_0000,
        ram.word(0x8001_0ab8) == Some(0x11_0000_0000),
        trans.place(0) == platform.trans().place(0),
        trans.place(1) == platform.trans().place(1),
        contexts.place(0) == platform.contexts().place(0),
        contexts.place(1) == platform.contexts().place(1),
    ];
    Ok(first_wrong(&facts))
}

#[test]
fn parts_are_copied(rt: HostRuntime) -> Result<(), Fail> {
    assert_eq!(rt; otherwise_copied(rt.alloc())?, None);
    Ok(())
}

// A word of a memory that is made of 512 words.
fn word_of_made(alloc: Global) -> Result<Option<u64>, Fail> {
    spend(alloc, 12)?;
    let ram = Ram::of_words(alloc, BASE, &[0x0807_0605_0403_0201; 512])?;
    Ok(ram.word(BASE + 8))
}

#[test]
fn memory_is_made_of_words(rt: HostRuntime) -> Result<(), Fail> {
    assert_eq!(rt; word_of_made(rt.alloc())?, Some(0x0807_0605_0403_0201));
    Ok(())
}

// A word of a memory that is taken from its words: its base, their number, and these.
fn word_of_taken(alloc: Global) -> Result<Option<u64>, Fail> {
    spend(alloc, 12)?;
    let mut words = [0x0807_0605_0403_0201; 514];
    words[0] = BASE;
    words[1] = 512;
    let ram = take_memory(alloc, &mut SavedWords::of(&words))?;
    Ok(ram.word(BASE + 8))
}

#[test]
fn memory_is_taken(rt: HostRuntime) -> Result<(), Fail> {
    assert_eq!(rt; word_of_taken(rt.alloc())?, Some(0x0807_0605_0403_0201));
    Ok(())
}

// How many words a platform with a device has. What makes it takes eight allocations.
fn words_put(alloc: Global) -> Result<usize, Fail> {
    spend(alloc, 4)?;
    let platform = with_device(alloc)?;
    let mut words = Vec::new(alloc);
    put_history(&mut words, &History::new(&platform))?;
    put_memory(&mut words, &platform.ram)?;
    put_board(&mut words, &platform.board)?;
    Ok(words.len())
}

// Three of the history, 514 of the memory, and 130 of the board, of which 64 are its disk's.
#[test]
fn words_are_put(rt: HostRuntime) -> Result<(), Fail> {
    assert_eq!(rt; words_put(rt.alloc())?, 3 + 514 + 130);
    Ok(())
}

// The words of a board at reset, without features, with nothing cached, no window and no device: all are 0 but the number of vectors.
fn mode_of_taken(alloc: Global) -> Result<u64, Fail> {
    spend(alloc, 12)?;
    let mut words = [0; 39];
    words[14] = 4;
    let board = take_board(alloc, &mut SavedWords::of(&words))?;
    Ok(board.registers().values().ddtp)
}

#[test]
fn board_is_taken(rt: HostRuntime) -> Result<(), Fail> {
    assert_eq!(rt; mode_of_taken(rt.alloc())?, 0);
    Ok(())
}

#[test]
fn words_are_read_from_bytes(rt: HostRuntime) -> Result<(), Fail> {
    spend(rt.alloc(), 12)?;
    let words = words_of(rt.alloc(), &[1, 2, 0, 0, 0, 0, 0, 3])?;
    assert_eq!(rt; words.as_slice(), [0x0300_0000_0000_0201].as_slice());
    Ok(())
}

#[test]
fn words_are_written_as_bytes(rt: HostRuntime) -> Result<(), Fail> {
    spend(rt.alloc(), 12)?;
    let bytes = bytes_of(rt.alloc(), &[0x0807_0605_0403_0201; 9])?;
    assert_eq!(rt; bytes.len(), 72);
    assert!(rt; matches!(bytes.as_slice(), [1, 2, 3, 4, 5, 6, 7, 8, 1, ..]));
    Ok(())
}

// Follows steps that read a page, and then unmap it without an invalidation.
fn followed(alloc: Global, platform: &mut Platform) -> Result<Holdings, AllocError> {
    let mut holdings = Holdings::new(alloc);
    let steps = [
        written(16, 8, 0x2000_0402),
        read(0x4020_1abc),
        stored(0x8000_4008, 0),
    ];
    for (k, step) in steps.iter().enumerate() {
        holdings.follow(&platform.board, &platform.ram, step, k as u64)?;
        platform.step(step);
    }
    Ok(holdings)
}

// How many entries may be held.
fn entry_count(holdings: &Holdings) -> usize {
    let mut count: usize = 0;
    for shelf in holdings.entries().shelves() {
        count = count.saturating_add(shelf.len());
    }
    count
}

// Whether the step of this number is the newest that could read each of these.
fn are_numbered(kept: &[Kept], number: u64) -> bool {
    kept.iter().all(|each| each.number == number)
}

// The context, two pointers, a leaf and the whole translation; the unmapped page is owed, and another isn't.
fn are_followed(holdings: &Holdings, platform: &Platform) -> Result<Option<usize>, AllocError> {
    let Platform { board, ram } = platform;
    let other = Request {
        did: 5,
        iova: 0x5020_1abc,
        kind: Kind::Read,
    };
    let owed = holdings.owed(board, ram)?;
    let numbers = match owed.as_slice() {
        [one] => Some((one.made.number, one.made.request.iova)),
        _ => None,
    };
    let facts = [
        entry_count(holdings) == 5,
        holdings
            .entries()
            .shelves()
            .iter()
            .all(|shelf| are_numbered(shelf, 1)),
        holdings.request_count() == 1,
        numbers == Some((1, 0x4020_1000)),
        holdings.is_settled(board, ram, &other)?,
    ];
    Ok(first_wrong(&facts))
}

// A platform takes four allocations; to follow the read takes more than three.
#[test]
fn steps_are_followed(rt: HostRuntime) -> Result<(), Fail> {
    spend(rt.alloc(), 8)?;
    let mut platform = started(rt.alloc(), &MAPPED)?;
    let holdings = followed(rt.alloc(), &mut platform)?;
    assert_eq!(rt; are_followed(&holdings, &platform)?, None);
    Ok(())
}

// What may be held where a page is read ahead, which no step reads, and is unmapped without an invalidation.
fn read_ahead(alloc: Global, platform: &mut Platform) -> Result<Holdings, AllocError> {
    let mut ahead = Vec::new(alloc);
    ahead.push(Request {
        did: 5,
        iova: 0x4020_1abc,
        kind: Kind::Read,
    })?;
    let mut holdings = Holdings::reading_ahead(alloc, ahead)?;
    holdings.read_ahead(&platform.board, &platform.ram, 0)?;
    let steps = [written(16, 8, 0x2000_0402), stored(0x8000_4008, 0)];
    for (k, step) in (1..).zip(steps.iter()) {
        holdings.follow(&platform.board, &platform.ram, step, k)?;
        platform.step(step);
        holdings.read_ahead(&platform.board, &platform.ram, k)?;
    }
    Ok(holdings)
}

// The page is owed, by a request that no step made and an entry that was read behind the first step.
#[test]
fn pages_are_read_ahead(rt: HostRuntime) -> Result<(), Fail> {
    spend(rt.alloc(), 12)?;
    let mut platform = started(rt.alloc(), &MAPPED)?;
    let holdings = read_ahead(rt.alloc(), &mut platform)?;
    let owed = holdings.owed(&platform.board, &platform.ram)?;
    let numbers = match owed.as_slice() {
        [one] => Some((
            one.made.number,
            one.made.request.iova,
            one.unsettled.read_in(),
        )),
        _ => None,
    };
    let facts = [
        entry_count(&holdings) == 5,
        numbers == Some((0, 0x4020_1000, Some(1))),
    ];
    assert_eq!(rt; first_wrong(&facts), None);
    Ok(())
}

#[test]
fn entry_is_held_alone(rt: HostRuntime) -> Result<(), Fail> {
    spend(rt.alloc(), 12)?;
    let held = Held {
        level: 0,
        part: 0,
        word: 0xf,
        global: false,
    };
    let kept = Kept {
        entry: Entry::Second { gscid: 1, held },
        number: 7,
        unfenced: Some(8),
    };
    let held = HeldEntries::one(rt.alloc(), kept)?;
    assert!(rt; held.shelves().iter().all(|shelf| are_numbered(shelf, 7)));
    assert_eq!(rt; held.shelves().len(), 1);
    assert!(rt; held.lenders(rt.alloc())?.is_some());
    Ok(())
}

// Judges a read, the page's unmapping without an invalidation, a read that still goes to its frame, and one that goes elsewhere.
fn judged(alloc: Global, platform: Platform) -> Result<Option<usize>, AllocError> {
    let mut judge = Judge::new(alloc, platform)?;
    let mut seen = Seen::nothing();
    let directory = judge.follow(&written(16, 8, 0x2000_0402), &seen)?;
    seen.addr = Some(0x8001_0abc);
    let first = judge.follow(&read(0x4020_1abc), &seen)?;
    let unmapped = judge.follow(&stored(0x8000_4008, 0), &Seen::nothing())?;
    let stale = judge.follow(&read(0x4020_1abc), &seen)?;
    let alone = judge.candidates().len() == 1;
    seen.addr = Some(0x8001_1abc);
    let elsewhere = judge.follow(&read(0x4020_1abc), &seen)?;
    let alike = judge.candidates().len() == 1;
    let facts = [
        matches!(directory, Verdict::Allowed),
        matches!(first, Verdict::Allowed),
        matches!(unmapped, Verdict::Allowed),
        matches!(stale, Verdict::Allowed),
        alone,
        matches!(elsewhere, Verdict::Refused),
        alike,
        judge.may_take(&Step::Command)?,
        judge.take_unseen(&Step::Command)?,
        judge.candidates().len() == 1,
        judge.allowed(&read(0x4020_1abc))?.len() == 2,
    ];
    Ok(first_wrong(&facts))
}

// A platform takes four allocations; a judge takes one, and each step that it follows more.
#[test]
fn steps_are_judged(rt: HostRuntime) -> Result<(), Fail> {
    spend(rt.alloc(), 8)?;
    let platform = started(rt.alloc(), &MAPPED)?;
    assert_eq!(rt; judged(rt.alloc(), platform)?, None);
    Ok(())
}

// Judges a read by an IOMMU whose directory is off.
fn listed(alloc: Global, platform: Platform) -> Result<Option<usize>, AllocError> {
    let mut judge = Judge::new(alloc, platform)?;
    let mut seen = Seen::nothing();
    seen.addr = Some(0x8001_0abc);
    let mut allowed = Vec::new(alloc);
    let verdict = judge.follow_listing(&read(0x4020_1abc), &seen, &mut allowed)?;
    let facts = [
        matches!(verdict, Verdict::Refused),
        matches!(allowed.as_slice(), [one] if one.answer == Answer::Denied(256)),
    ];
    Ok(first_wrong(&facts))
}

// A platform takes four allocations, and a judge one; the step takes more than three.
#[test]
fn refused_steps_are_listed(rt: HostRuntime) -> Result<(), Fail> {
    spend(rt.alloc(), 7)?;
    let platform = started(rt.alloc(), &MAPPED)?;
    assert_eq!(rt; listed(rt.alloc(), platform)?, None);
    Ok(())
}
