//! The bodies of messages of reads, appended to bytes.

ghost use Rattle.std.specs.Prelude.{◌≡◌, ◌≤◌, ◌+◌, ◌++◌, OnOk};
ghost use Rattle.cx_letter.specs.Messages as message;
ghost use Rattle.cx_wire.specs.Format.{Appends};

use cx_base::{Key, NoMemory, Round, Text};
use cx_field::{
    Asking, Entries, Token, put_asking, put_entries, put_found, put_mark, put_name, put_round,
    put_seq, put_token,
};
use cx_wire::put_u16;

#[tactic(auto, unfolding(cx_letter::specs::Messages::read_req))]
pub fn put_read_req(out: &mut Vec<u8>, seq: u64, replica: u16, key: &Key) -> Result<(), NoMemory>
    ensures { OnOk result
        (Appends message.read_req (seq, (replica, key.now)) 43 out.old.items out.new.items) }
{
    put_seq(out, seq)?;
    put_u16(out, replica)?;
    put_name(out, key)
}

#[tactic(auto, unfolding(cx_letter::specs::Messages::match_read_ack))]
pub fn put_match_read_ack(
    out: &mut Vec<u8>,
    asking: &Asking,
    watermark: &Round,
    entries: &Entries,
) -> Result<(), NoMemory>
    ensures { OnOk result (Appends message.match_read_ack (asking.now, (watermark.now, entries.now))
        11241 out.old.items out.new.items) }
{
    put_asking(out, asking)?;
    put_round(out, watermark)?;
    put_entries(out, entries)
}

#[tactic(auto, unfolding(cx_letter::specs::Messages::pre_read))]
pub fn put_pre_read(out: &mut Vec<u8>, asking: &Asking, watermark: &Round) -> Result<(), NoMemory>
    ensures { OnOk result
        (Appends message.pre_read (asking.now, watermark.now) 20 out.old.items out.new.items) }
{
    put_asking(out, asking)?;
    put_round(out, watermark)
}

#[tactic(auto, unfolding(cx_letter::specs::Messages::pre_read_ack))]
pub fn put_pre_read_ack(
    out: &mut Vec<u8>,
    asking: &Asking,
    watermark: &Round,
    mark: u64,
) -> Result<(), NoMemory>
    ensures { OnOk result (Appends message.pre_read_ack (asking.now, (watermark.now, mark)) 28
        out.old.items out.new.items) }
{
    put_asking(out, asking)?;
    put_round(out, watermark)?;
    put_mark(out, mark)
}

#[tactic(auto, unfolding(cx_letter::specs::Messages::read_key))]
pub fn put_read_key(out: &mut Vec<u8>, token: &Token, mark: u64, key: &Key) -> Result<(), NoMemory>
    ensures { OnOk result
        (Appends message.read_key (token.now, (mark, key.now)) 51 out.old.items out.new.items) }
{
    put_token(out, token)?;
    put_mark(out, mark)?;
    put_name(out, key)
}

#[tactic(auto, unfolding(cx_letter::specs::Messages::read_answer))]
pub fn put_read_answer(
    out: &mut Vec<u8>,
    seq: u64,
    mark: u64,
    found: &Option<Text>,
) -> Result<(), NoMemory>
    ensures { OnOk result
        (Appends message.read_answer (seq, (mark, found.now)) 82 out.old.items out.new.items) }
{
    put_seq(out, seq)?;
    put_mark(out, mark)?;
    put_found(out, found)
}

#[tactic(auto, unfolding(cx_letter::specs::Messages::sess_read))]
pub fn put_sess_read(out: &mut Vec<u8>, seq: u64, mark: u64, key: &Key) -> Result<(), NoMemory>
    ensures { OnOk result
        (Appends message.sess_read (seq, (mark, key.now)) 49 out.old.items out.new.items) }
{
    put_seq(out, seq)?;
    put_mark(out, mark)?;
    put_name(out, key)
}
