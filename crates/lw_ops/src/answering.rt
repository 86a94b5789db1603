//! What ops are answered by a set of channels.
ghost use Rattle.std.specs.Prelude.{◌<◌, length};
ghost use Rattle.lw_latch.specs.DeviceWord.{most_gives};
ghost use Rattle.lw_channel.specs.Channels.{channel_of};
ghost use Rattle.lw_ops.specs.Answering.{IsGot, IsPut, IsBegun};

use lw_channel::{ChannelSet, Put};
use lw_device::GetRefusal;
use lw_model::Answer;

/// What a get is answered.
pub fn get_of(set: &mut ChannelSet, image: u32) -> Answer
    requires device { image < length set.old.row.seats }
    requires room { (channel_of set.old image).gets < most_gives }
    ensures { IsGot image set.old set.new result }
{
    match set.get(image) {
        Ok(got) => {
            if got.made {
                Answer::Given {
                    ordinal: got.ordinal,
                }
            } else {
                Answer::Again {
                    ordinal: got.ordinal,
                }
            }
        }
        Err(GetRefusal::Shut) => Answer::Shut,
        Err(GetRefusal::NoDevice) => unreachable!(),
    }
}

/// What a put is answered.
pub fn put_of(set: &mut ChannelSet, image: u32) -> Answer
    ensures { IsPut image set.old set.new result }
{
    match set.put(image) {
        Ok(Put::Counted) => Answer::Counted,
        Ok(Put::Deferred) => Answer::Deferred,
        Err(_) => Answer::NoChannel,
    }
}

/// What an unregistration is answered.
pub fn unregister_of(set: &mut ChannelSet, image: u32) -> Answer
    requires device { image < length set.old.row.seats }
    ensures { IsBegun image set.old set.new result }
{
    match set.unregister(image) {
        Ok(given) => Answer::Began { given },
        Err(_) => Answer::Already,
    }
}
