// Answers packed into one number, for callers in C or Rust. Each part stands at a power of two, so that it can be taken out again.
#![tactic(auto)]

ghost use Rattle.std.specs.Prelude.{◌≡◌, ◌≤◌, ◌<◌, IfOk};
ghost use Rattle.words.specs.Limits.{most_journals};
ghost use Rattle.records.specs.Sizes.{most_rows, row_record_size};
ghost use Rattle.books.specs.Answers.{counted_in, checked_in, open_journals_in, live_rows_in};
ghost use Rattle.packing.specs.Packed.{packed_count, packed_check, packed_page, packed_journals, packed_rows, most_words};

use books::{Fault, Refused};

// A count's answer: its number, or the count 2^8 times.
pub fn packed_count(counted: Result<u8, Refused>) -> u32
    ensures { result ≡ packed_count (counted_in counted) }
{
    packed_amount(counted.map(usize::from))
}

// What the check says: the number, the book 2^8 times, the record 2^16 times and the byte 2^32 times.
pub fn packed_check(seen: Result<(), Fault>) -> u64
    requires { ((checked_in seen).at ≤ most_rows) × ((checked_in seen).byte < row_record_size) }
    ensures { result ≡ packed_check (checked_in seen) }
{
    match seen {
        Ok(()) => 0,
        Err(fault) => {
            let number = u8::from(Refused::from(fault));
            let (book, at, byte) = fault.place();
            u64::from(number)
                + 256 * u64::from(book)
                + 65536 * (at as u64)
                + 4294967296 * (byte as u64)
        }
    }
}

// What a page of the list answers: the number, whether a further word remains 2^8 times and how many were written 2^16 times.
// Kept: three numbers in place of an answer, since `packing` stands below `page` and `list`, whose types the answer has.
pub fn packed_page(number: u8, more: bool, written: usize) -> u64
    requires { written ≤ most_words }
    ensures { result ≡ packed_page number more written }
{
    u64::from(number) + 256 * u64::from(more) + 65536 * (written as u64)
}

// How many journals are open: the number, or the journals 2^8 times.
pub fn packed_journals(opened: Result<usize, Refused>) -> u32
    requires { (open_journals_in opened).journals ≤ most_journals }
    ensures { result ≡ packed_journals (open_journals_in opened) }
{
    packed_amount(opened)
}

// How many live rows there are: the number, or the rows 2^8 times.
pub fn packed_rows(live: Result<usize, Refused>) -> u32
    requires { (live_rows_in live).rows ≤ most_rows }
    ensures { result ≡ packed_rows (live_rows_in live) }
{
    packed_amount(live)
}

// How many journals are open, or how many live rows there are: the number, or that many 2^8 times.
pub fn packed_amount(told: Result<usize, Refused>) -> u32
    requires { IfOk told (λ amount. amount ≤ most_rows) }
    ensures journals { result ≡ packed_journals (open_journals_in told) }
    ensures rows { result ≡ packed_rows (live_rows_in told) }
{
    match told {
        Ok(amount) => 256 * (amount as u32),
        Err(refused) => u32::from(u8::from(refused)),
    }
}
