ghost use Rattle.std.specs.Prelude.{◌≡◌, length};
ghost use Rattle.iom_c.specs.Answers.{bytes_in, code_of, HasLength, number_in};

use iom_core::Answer;

/// The number of an answer's kind, 0 to 8, in the order of `Answer`.
pub fn code_of(answer: &Answer) -> u32
    ensures { result ≡ code_of answer.now }
{
    match answer {
        Answer::Value(_) => 0,
        Answer::Done => 1,
        Answer::Bytes(_) => 2,
        Answer::Idle => 3,
        Answer::Denied(_) => 4,
        Answer::BusError => 5,
        Answer::BadAccess => 6,
        Answer::NoDevice => 7,
        Answer::Misuse => 8,
    }
}

/// Puts the number that was read, or the cause of a denial; no other answer changes `number`.
pub fn put_number(answer: &Answer, number: &mut u64)
    ensures { number.new ≡ number_in answer.now number.old }
{
    match answer {
        Answer::Value(value) => *number = *value,
        Answer::Denied(cause) => *number = u64::from(*cause),
        _ => {}
    }
}

/// Copies the bytes that a device read to `out`, at most its length; no other answer changes it.
pub fn put_bytes(answer: &Answer, out: &mut [u8])
    requires { HasLength answer.now (length out.old) }
    ensures { out.new ≡ bytes_in answer.now out.old }
{
    if let Answer::Bytes(bytes) = answer {
        out.copy_from_slice(bytes.as_slice());
    }
}
