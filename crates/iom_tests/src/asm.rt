//! Texts of images: the line for which one is refused, and the bytes of one that isn't; and listings that end beyond memory.

use iom_asm::{AsmFault, Item, ListFault, assemble, list};
use iom_bits::Features;
use iom_mem::Ram;
use std::alloc::Global;
use std::test::Fail;

// A text, and why it is refused; None if it isn't.
type Text<'a> = (&'a [u8], Option<AsmFault>);

const BAD_2: Option<AsmFault> = Some(AsmFault::BadLine(2));

const BAD_3: Option<AsmFault> = Some(AsmFault::BadLine(3));

// Texts whose first line isn't a memory, or is all.
const BEGINNINGS: &[Text<'static>] = &[
    (b"# nothing\n \t\r\n", Some(AsmFault::BadLine(0))),
    (b"\nat 0x80000000\n", BAD_2),
    (b"ram 0x80000000", Some(AsmFault::BadLine(1))),
    (b"ram 0x80000000 0x1000 # a comment", None),
    (
        b"capabilities\nram 0x80000000 0x1000",
        Some(AsmFault::BadLine(1)),
    ),
];

// Texts behind a first line that states a page of memory.
const TEXTS: &[Text<'static>] = &[
    (b"at 0", None),
    (b"at 0\nbytes 0", BAD_3),
    (b"at 1 2", BAD_2),
    (b"bytes aA\nbytes 01\n", None),
    (b"bytes 0x00", BAD_2),
    (b"bytes 00 00", BAD_2),
    (b"bytes", BAD_2),
    (b"u64 18446744073709551616", BAD_2),
    (
        b"at 0x80000004\nbytes 00\nat 0x80000000\nu64 1",
        Some(AsmFault::Overlap(5)),
    ),
    (
        b"at 0xffffffffffffffff\nbytes 00",
        Some(AsmFault::Outside(3)),
    ),
    (
        b"at 0x80000fff\nbytes 00\nbytes 01",
        Some(AsmFault::Outside(4)),
    ),
    (b"disk 5", BAD_2),
    (b"rodisk 5 0", BAD_2),
    (b"rodisk 5 1 c0f", BAD_2),
    (b"disk 5 1\nrodisk 5 1", BAD_3),
    (b"disk 5 1\ndisk 5 1", BAD_3),
    (b"cmd", BAD_2),
    (b"CMD iodir", BAD_2),
    (b"capabilities nl=1\ncmd gvma nl=1 s=0", BAD_3),
    (
        b"capabilities nl=1 s=1\ncmd vma nl=1 s=1\ncmd gvma nl=0 s=0",
        None,
    ),
    (b"capabilities nl=1 s=1\ncmd gvma s=2", BAD_3),
    (b"capabilities sv57x4=1\ncontext gmode=10 gppn=2", BAD_3),
    (b"context mode=10\ncapabilities sv57=1", BAD_2),
    (b"capabilities svnapot=1", BAD_2),
    (b"capabilities nl=2", BAD_2),
    (b"capabilities nl", BAD_2),
    (b"capabilities nl=1 nl=1", BAD_2),
    (b"capabilities vectors=0", BAD_2),
    (b"capabilities vectors=8", BAD_2),
    (b"capabilities igs=3", BAD_2),
    (b"capabilities igs", BAD_2),
    (b"capabilities igs=0 vectors=2 igs=0", BAD_2),
    (b"capabilities\ncapabilities igs=0", BAD_3),
    (b"capabilities igs=0\ncapabilities", BAD_3),
    (b"capabilities\ncapabilities", BAD_3),
    (
        b"window 0x90000000 0x2000\ncapabilities\nwindow 0x90000000 0x2000",
        Some(AsmFault::BadLine(4)),
    ),
    (
        b"window 0x90000000 0x1000\ncapabilities\ncapabilities",
        Some(AsmFault::BadLine(4)),
    ),
    (
        b"capabilities delays=1\nwindow 0x7fff0000 0x10000\nat 0x7fff0000\nu64 1",
        Some(AsmFault::Outside(5)),
    ),
    (b"window 0x7fff0000 0x11000", BAD_2),
    (b"window 0x80001000 0x1000", None),
    (b"window 0x80000000 0x1000", BAD_2),
    (b"window 0 0x100000000000000", BAD_2),
    (b"window 0x80001000 0xffffff7ffff000", None),
    (b"window 0x80001000 0xffffff80000000", BAD_2),
    (b"window 0x90000000 0", BAD_2),
    (b"window 0x90000010 0x1000", BAD_2),
    (b"window 0x90000000 0x1010", BAD_2),
    (b"window 0x90000000", BAD_2),
    (b"window 0x90000000 0x1000 1", BAD_2),
    (b"window", BAD_2),
];

// A text that states a page of memory and then this.
fn behind_a_page(alloc: Global, text: &[u8]) -> Result<Vec<u8>, Fail> {
    let mut whole = Vec::from_slice(alloc, b"ram 0x80000000 0x1000\n")?;
    whole.extend_from_slice(text)?;
    Ok(whole)
}

// The index of the first text with another verdict.
fn otherwise(alloc: Global, texts: &[Text<'_>]) -> Option<usize> {
    for (i, (text, want)) in texts.iter().enumerate() {
        if assemble(alloc, text).err() != *want {
            return Some(i);
        }
    }
    None
}

// The index of the first text behind a page of memory with another verdict.
fn otherwise_behind(alloc: Global, texts: &[Text<'_>]) -> Result<Option<usize>, Fail> {
    for (i, (text, want)) in texts.iter().enumerate() {
        if assemble(alloc, &behind_a_page(alloc, text)?).err() != *want {
            return Ok(Some(i));
        }
    }
    Ok(None)
}

#[test]
fn texts_are_refused_at_the_first_line(rt: HostRuntime) -> Result<(), Fail> {
    assert_eq!(rt; otherwise(rt.alloc(), BEGINNINGS), None);
    assert_eq!(rt; otherwise_behind(rt.alloc(), TEXTS)?, None);
    Ok(())
}

// Texts behind a page of memory, and the bytes of their images behind those that name the version.
const IMAGES: &[(&[u8], &[u8])] = &[
    (
        b"",
        b"1\0\0\0\x80\0\0\0\0\0\x10\0\0\0\0\0\0\0\0\0\0\0\0\0\0",
    ),
    (
        b"capabilities",
        b"3\0\0\0\0\0\0\0\0\0\0\0\x80\0\0\0\0\0\x10\0\0\0\0\0\0\0\0\0\0\0\0\0\0",
    ),
    (
        b"capabilities sv57=0 s=0x0 vectors=1",
        b"3\0\0\0\0\0\0\0\0\0\0\0\x80\0\0\0\0\0\x10\0\0\0\0\0\0\0\0\0\0\0\0\0\0",
    ),
    (
        b"capabilities vectors=4 s=1 nl=1 svpbmt=1 sv57x4=1 sv57=1",
        b"3\0\x88\x08\0\0\x0c\0\x04\0\0\0\x80\0\0\0\0\0\x10\0\0\0\0\0\0\0\0\0\0\0\0\0\0",
    ),
    (
        b"capabilities igs=1",
        b"3\0\0\0\0\0\0\0\0\0\0\0\x80\0\0\0\0\0\x10\0\0\0\0\0\0\0\0\0\0\0\0\0\0",
    ),
    (
        b"capabilities igs=0",
        b"4\x10\x06\x06\0\x38\0\0\0\0\0\0\0\0\0\0\0\0\0\0\x80\0\0\0\0\0\x10\0\0\0\0\0\0\0\0\0\0\0\0\0\0",
    ),
    (
        b"capabilities igs=2 delays=1 vectors=4 s=1 nl=1 svpbmt=1 sv57x4=1 sv57=1",
        b"4\x10\x8e\x0e\x20\x38\x0c\0\0\x0c\0\0\0\0\0\0\0\0\0\0\x80\0\0\0\0\0\x10\0\0\0\0\0\0\0\0\0\0\0\0\0\0",
    ),
    (
        b"rodisk 5 1 aa\ncapabilities nl=1",
        b"3\0\0\0\0\0\x04\0\0\0\0\0\x80\0\0\0\0\0\x10\0\0\0\0\0\0\0\0\0\0\x01\0\0\0\x05\0\0\0\x01\0\0\0\x01\0\0\0\x01\0\0\0\xaa",
    ),
    (
        b"window 0x28000000 0x3000",
        b"4\x10\x06\x06\x10\x38\0\0\0\x01\x01\0\0\0\0\0\0\0\0\0\x28\0\0\0\0\0\x30\0\0\0\0\0\0\0\0\0\x80\0\0\0\0\0\x10\0\0\0\0\0\0\0\0\0\0\0\0\0\0",
    ),
    (
        b"window 0x28000000 0x3000\ncapabilities vectors=2",
        b"4\x10\x06\x06\x10\x38\0\0\0\x02\x01\0\0\0\0\0\0\0\0\0\x28\0\0\0\0\0\x30\0\0\0\0\0\0\0\0\0\x80\0\0\0\0\0\x10\0\0\0\0\0\0\0\0\0\0\0\0\0\0",
    ),
    (
        b"capabilities\nwindow 0x28000000 0x3000",
        b"4\x10\x06\x06\x10\x38\0\0\0\0\x01\0\0\0\0\0\0\0\0\0\x28\0\0\0\0\0\x30\0\0\0\0\0\0\0\0\0\x80\0\0\0\0\0\x10\0\0\0\0\0\0\0\0\0\0\0\0\0\0",
    ),
];

// The index of the first text with another image.
fn otherwise_assembled(alloc: Global, texts: &[(&[u8], &[u8])]) -> Result<Option<usize>, Fail> {
    for (i, (text, want)) in texts.iter().enumerate() {
        let image = assemble(alloc, &behind_a_page(alloc, text)?)?;
        if image.strip_prefix(b"RVIOMMU".as_slice()) != Some(*want) {
            return Ok(Some(i));
        }
    }
    Ok(None)
}

#[test]
fn texts_have_their_images(rt: HostRuntime) -> Result<(), Fail> {
    assert_eq!(rt; otherwise_assembled(rt.alloc(), IMAGES)?, None);
    Ok(())
}

// A kind of item, an address, a number of items, and their lines in a page of zeros; None if the listing is refused.
type Listing<'a> = (Item, u64, u64, Option<&'a str>);

const LISTINGS: &[Listing<'static>] = &[
    (Item::Word, 0x8000_0ff8, 1, Some("u64 0x0\n")),
    (Item::Word, 0x8000_0ff8, 2, None),
    (Item::Word, 0x8000_0ff9, 1, None),
    (Item::Word, 0x7fff_ffff, 1, None),
    (Item::Fault, 0x8000_0000, 1 << 59, None),
    (Item::Word, u64::MAX, u64::MAX, None),
    (Item::Cmd, u64::MAX, 0, Some("")),
    (Item::Cmd, 0, 0, Some("")),
];

// The index of the first listing that isn't the expected one.
fn otherwise_listed(alloc: Global, ram: &Ram, listings: &[Listing<'_>]) -> Option<usize> {
    for (i, (item, addr, count, want)) in listings.iter().enumerate() {
        let is_wanted = match list(alloc, ram, Features::none(), *item, *addr, *count) {
            Ok(text) => *want == Some(text.as_str()),
            Err(fault) => want.is_none() && fault == ListFault::Outside,
        };
        if !is_wanted {
            return Some(i);
        }
    }
    None
}

#[test]
fn listings_at_the_end(rt: HostRuntime) -> Result<(), Fail> {
    let ram = Ram::new(rt.alloc(), 0x8000_0000, 0x1000)?;
    assert_eq!(rt; otherwise_listed(rt.alloc(), &ram, LISTINGS), None);
    Ok(())
}
