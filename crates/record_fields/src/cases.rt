// How cases are encoded as the numbers that a record holds.
ghost use Rattle.std.specs.Prelude.{◌≡◌};
ghost use Rattle.store.specs.Record.{fill_kind, fill_first, fill_end, transfer_kind, transfer_first, transfer_end};
ghost use Rattle.record.specs.DeviceMeaning.{as_transfer, as_fill};

use layout::port;
use record::{Fill, Transfer};

pub fn transfer_kind(t: Transfer) -> u8
    ensures { result ≡ transfer_kind (as_transfer t) }
{
    match t {
        Transfer::None => port::NO_TRANSFER,
        Transfer::Table => port::TABLE,
        Transfer::FillData(_, _) => port::FILL_DATA,
        Transfer::ReadLong(_) => port::READ_LONG,
        Transfer::WriteLong(_) => port::WRITE_LONG,
    }
}

pub fn transfer_first(t: Transfer) -> u64
    ensures { result ≡ transfer_first (as_transfer t) }
{
    match t {
        Transfer::None => 0,
        Transfer::Table => 0,
        Transfer::FillData(first, _) => first,
        Transfer::ReadLong(lba) => lba,
        Transfer::WriteLong(lba) => lba,
    }
}

pub fn transfer_end(t: Transfer) -> u64
    ensures { result ≡ transfer_end (as_transfer t) }
{
    match t {
        Transfer::None => 0,
        Transfer::Table => 0,
        Transfer::FillData(_, end) => end,
        Transfer::ReadLong(_) => 0,
        Transfer::WriteLong(_) => 0,
    }
}

pub fn fill_kind(f: Fill) -> u8
    ensures { result ≡ fill_kind (as_fill f) }
{
    match f {
        Fill::Idle => 0,
        Fill::Running(_, _, _) => 1,
    }
}

pub fn fill_first(f: Fill) -> u64
    ensures { result ≡ fill_first (as_fill f) }
{
    match f {
        Fill::Idle => 0,
        Fill::Running(first, _, _) => first,
    }
}

pub fn fill_end(f: Fill) -> u64
    ensures { result ≡ fill_end (as_fill f) }
{
    match f {
        Fill::Idle => 0,
        Fill::Running(_, _, end) => end,
    }
}
