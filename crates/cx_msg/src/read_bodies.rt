//! The bodies of messages of reads, read from the start of bytes.

ghost use Rattle.std.specs.Prelude.{◌≡◌};
ghost use Rattle.cx_wire.specs.Format as wire;
ghost use Rattle.cx_field.specs.Fields as field;
ghost use Rattle.cx_letter.specs.Messages as message;
ghost use Rattle.cx_field.specs.Reading.{Gives};

use cx_field::{
    ByteReader, ReadFault, asking_from, entries_from, found_from, mark_from, name_from,
    round0_from, seq_from, token_from,
};
use cx_letter::Msg;
use std::alloc::Global;

#[tactic(auto, unfolding(cx_letter::specs::Messages::read_req))]
pub fn read_req_from(reader: &mut ByteReader<'_>) -> Result<Msg, ReadFault>
    ensures { Gives (λ m. m) result
        ((wire.case 23 message.read_req (λ x. Msg.ReadReq x.0 x.1.0 x.1.1)).read reader.old)
        reader.new }
{
    let seq = seq_from(reader)?;
    let replica = reader.u16()?;
    let key = name_from(reader)?;
    Ok(Msg::ReadReq { seq, replica, key })
}

pub fn match_read_from(reader: &mut ByteReader<'_>) -> Result<Msg, ReadFault>
    ensures { Gives (λ m. m) result
        ((wire.case 24 field.asking (λ x. Msg.MatchRead x)).read reader.old) reader.new }
{
    let asking = asking_from(reader)?;
    Ok(Msg::MatchRead { asking })
}

#[tactic(auto, unfolding(cx_letter::specs::Messages::match_read_ack))]
pub fn match_read_ack_from(alloc: Global, reader: &mut ByteReader<'_>) -> Result<Msg, ReadFault>
    ensures { Gives (λ m. m) result
        ((wire.case 25 message.match_read_ack
        (λ x. Msg.MatchReadAck x.0 x.1.0 x.1.1)).read reader.old) reader.new }
{
    let asking = asking_from(reader)?;
    let watermark = round0_from(reader)?;
    let entries = entries_from(alloc, reader)?;
    Ok(Msg::MatchReadAck {
        asking,
        watermark,
        entries,
    })
}

#[tactic(auto, unfolding(cx_letter::specs::Messages::pre_read))]
pub fn pre_read_from(reader: &mut ByteReader<'_>) -> Result<Msg, ReadFault>
    ensures { Gives (λ m. m) result
        ((wire.case 26 message.pre_read (λ x. Msg.PreRead x.0 x.1)).read reader.old) reader.new }
{
    let asking = asking_from(reader)?;
    let watermark = round0_from(reader)?;
    Ok(Msg::PreRead { asking, watermark })
}

#[tactic(auto, unfolding(cx_letter::specs::Messages::pre_read_ack))]
pub fn pre_read_ack_from(reader: &mut ByteReader<'_>) -> Result<Msg, ReadFault>
    ensures { Gives (λ m. m) result
        ((wire.case 27 message.pre_read_ack (λ x. Msg.PreReadAck x.0 x.1.0 x.1.1)).read reader.old)
        reader.new }
{
    let asking = asking_from(reader)?;
    let watermark = round0_from(reader)?;
    let mark = mark_from(reader)?;
    Ok(Msg::PreReadAck {
        asking,
        watermark,
        mark,
    })
}

#[tactic(auto, unfolding(cx_letter::specs::Messages::read_key))]
pub fn read_from(reader: &mut ByteReader<'_>) -> Result<Msg, ReadFault>
    ensures { Gives (λ m. m) result
        ((wire.case 28 message.read_key
        (λ x. Msg.Read x.0 x.1.0 x.1.1)).read reader.old) reader.new }
{
    let token = token_from(reader)?;
    let mark = mark_from(reader)?;
    let key = name_from(reader)?;
    Ok(Msg::Read { token, mark, key })
}

#[tactic(auto, unfolding(cx_letter::specs::Messages::read_answer))]
pub fn read_answer_from(reader: &mut ByteReader<'_>) -> Result<Msg, ReadFault>
    ensures { Gives (λ m. m) result
        ((wire.case 29 message.read_answer (λ x. Msg.ReadAnswer x.0 x.1.0 x.1.1)).read reader.old)
        reader.new }
{
    let seq = seq_from(reader)?;
    let mark = mark_from(reader)?;
    let found = found_from(reader)?;
    Ok(Msg::ReadAnswer { seq, mark, found })
}

#[tactic(auto, unfolding(cx_letter::specs::Messages::sess_read))]
pub fn sess_read_from(reader: &mut ByteReader<'_>) -> Result<Msg, ReadFault>
    ensures { Gives (λ m. m) result
        ((wire.case 38 message.sess_read
        (λ x. Msg.SessRead x.0 x.1.0 x.1.1)).read reader.old) reader.new }
{
    let seq = seq_from(reader)?;
    let mark = mark_from(reader)?;
    let key = name_from(reader)?;
    Ok(Msg::SessRead { seq, mark, key })
}
