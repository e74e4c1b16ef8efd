//! The registers.

ghost use Rattle.std.specs.Prelude.{ℕ, ◌≡◌, ◌<◌, ◌^◌, ◌++◌, ◌∷◌, List, length, true, OnOk, IfSome, IsSomeAnd};
ghost use Rattle.iom_bits.specs.Features.{is_offer};
ghost use Rattle.iom_regs.specs.Table.{Registers};
ghost use Rattle.iom_regs.specs.Values.{registers_of};
ghost use Rattle.iom_regs.specs.declared.vectors.MsiVector.{MsiVector as Vector};
ghost use Rattle.iom_saved.specs.Kept.{AreRegisters};
ghost use Rattle.iom_saved.specs.Registers.{AreVectors, register_words, table_words, vector_words};

use crate::words::SavedWords;
use iom_bits::{Features, flag};
use iom_regs::{MsiVector, RegValues, Regs};
use std::alloc::AllocError;

/// Appends the words of a register file. The fault is a refused allocation.
pub fn put_registers(out: &mut Vec<u64>, registers: &Regs) -> Result<(), AllocError>
    ensures words { OnOk result (out.new.items ≡ out.old.items ++ register_words registers.now) }
    ensures kept { AreRegisters registers.now }
{
    let values = registers.values();
    are_small(&values.table);
    put_values(out, &values)
}

/// The register file that the next words are; None if they are none.
pub fn take_registers(words: &mut SavedWords<'_>) -> Option<Regs>
    ensures words { IfSome result (λ registers. words.old ≡ register_words registers ++ words.new) }
    ensures taken { (r : Registers) (rest : List ℕ) → words.old ≡ register_words r ++ rest → AreRegisters r →
        IsSomeAnd result (λ taken. (taken ≡ r) × (words.new ≡ rest)) }
{
    let values = take_values(words)?;
    let registers = Regs::of(&values)?;
    Some(registers)
}

// A law of vectors: msi_data has 32 bits.
fn are_small(table: &[MsiVector; 4])
    ensures { AreVectors table.now }
{
    let [first, second, third, fourth] = *table;
    is_small(first);
    is_small(second);
    is_small(third);
    is_small(fourth);
}

fn is_small(vector: MsiVector)
    ensures { vector.value < 2 ^ 32 }
{}

fn put_values(out: &mut Vec<u64>, values: &RegValues) -> Result<(), AllocError>
    ensures { OnOk result (out.new.items ≡ out.old.items ++ register_words (registers_of values.now)) }
{
    out.extend_from_slice(&[
        values.features.word(),
        values.ddtp,
        values.acting,
        values.cqb,
        values.cqh,
        values.cqt,
        values.fqb,
        values.fqh,
        values.fqt,
        values.cqcsr,
        values.fqcsr,
        values.ipsr,
        values.icvec,
        values.fctl,
    ])?;
    put_table(out, &values.table)
}

// Appends the words of the vectors of interrupts by message, behind their number.
fn put_table(out: &mut Vec<u64>, table: &[MsiVector; 4]) -> Result<(), AllocError>
    ensures { OnOk result (out.new.items ≡ out.old.items ++ table_words table.now) }
{
    let [first, second, third, fourth] = *table;
    out.push(4)?;
    put_vector(out, first)?;
    put_vector(out, second)?;
    put_vector(out, third)?;
    put_vector(out, fourth)
}

fn put_vector(out: &mut Vec<u64>, vector: MsiVector) -> Result<(), AllocError>
    ensures { OnOk result (out.new.items ≡ out.old.items ++ vector_words vector) }
{
    out.extend_from_slice(&[
        vector.addr,
        u64::from(vector.value),
        flag(vector.masked),
        flag(vector.owed),
    ])
}

fn take_values(words: &mut SavedWords<'_>) -> Option<RegValues>
    ensures words { IfSome result (λ values. words.old ≡ register_words (registers_of values) ++ words.new) }
    ensures taken { (r : Registers) (rest : List ℕ) → words.old ≡ register_words r ++ rest → is_offer r.features ≡ true →
        length r.table ≡ 4 → AreVectors r.table →
        IsSomeAnd result (λ taken. (registers_of taken ≡ r) × (words.new ≡ rest)) }
{
    let features = take_features(words)?;
    let (ddtp, acting) = words.two()?;
    let (cqb, cqh, cqt, fqb) = words.four()?;
    let (fqh, fqt, cqcsr, fqcsr) = words.four()?;
    let (ipsr, icvec) = words.two()?;
    let fctl = words.next()?;
    let table = take_table(words)?;
    Some(RegValues {
        features,
        ddtp,
        acting,
        cqb,
        cqh,
        cqt,
        fqb,
        fqh,
        fqt,
        cqcsr,
        fqcsr,
        ipsr,
        icvec,
        fctl,
        table,
    })
}

// The four vectors that the next words are.
fn take_table(words: &mut SavedWords<'_>) -> Option<[MsiVector; 4]>
    ensures words { IfSome result (λ table. words.old ≡ table_words table ++ words.new) }
    ensures taken { (table : List Vector) (rest : List ℕ) → words.old ≡ table_words table ++ rest → length table ≡ 4 → AreVectors table →
        IsSomeAnd result (λ taken. (taken ≡ table) × (words.new ≡ rest)) }
{
    if words.next()? != 4 {
        return None;
    }
    let (first, second) = take_pair(words)?;
    let (third, fourth) = take_pair(words)?;
    Some([first, second, third, fourth])
}

fn take_pair(words: &mut SavedWords<'_>) -> Option<(MsiVector, MsiVector)>
    ensures words { IfSome result (λ two. words.old ≡ vector_words two.0 ++ vector_words two.1 ++ words.new) }
    ensures taken { (a b : Vector) (rest : List ℕ) → words.old ≡ vector_words a ++ vector_words b ++ rest → a.value < 2 ^ 32 → b.value < 2 ^ 32 →
        IsSomeAnd result (λ two. (two.0 ≡ a) × (two.1 ≡ b) × (words.new ≡ rest)) }
{
    let first = take_vector(words)?;
    let second = take_vector(words)?;
    Some((first, second))
}

fn take_vector(words: &mut SavedWords<'_>) -> Option<MsiVector>
    ensures words { IfSome result (λ vector. words.old ≡ vector_words vector ++ words.new) }
    ensures taken { (vector : Vector) (rest : List ℕ) → words.old ≡ vector_words vector ++ rest → vector.value < 2 ^ 32 →
        IsSomeAnd result (λ taken. (taken ≡ vector) × (words.new ≡ rest)) }
{
    let addr = words.next()?;
    let value = words.next_u32()?;
    let (masked, owed) = words.flags()?;
    Some(MsiVector {
        addr,
        value,
        masked,
        owed,
    })
}

// The features that the next word is; None if it is no word of features.
fn take_features(words: &mut SavedWords<'_>) -> Option<Features>
    ensures words { IfSome result (λ features. words.old ≡ features ∷ words.new) }
    ensures taken { (word : ℕ) (rest : List ℕ) → words.old ≡ word ∷ rest → is_offer word ≡ true →
        IsSomeAnd result (λ taken. (taken ≡ word) × (words.new ≡ rest)) }
{
    let word = words.next()?;
    Features::of_word(word)
}
