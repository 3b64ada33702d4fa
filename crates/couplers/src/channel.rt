// A channel: the number last read well, as received, and the count of faulty beats in a row. It goes in by value and comes back anew.
ghost use Rattle.std.specs.Prelude.{◌≡◌, is_some};
ghost use Rattle.couplers.specs.Conversion.{value_of, thousandths_of};
ghost use Rattle.couplers.specs.Channel.{channel_count, sampled_fault, sampled_as, sampled, sampled_all, fresh_channels, is_channel, are_channels};

use crate::reading::{Reading, convert};

pub const CHANNELS: usize = 8;
// The faulty beats in a row for which the last good value serves.
pub const MAX_FAULTS: u8 = 25;

// The last good reading, whether there ever was one, and how many beats in a row were faulty since. Never good: the number is not looked at.
// It is no Option: a host puts number and flag into a state each by itself and reads each again (`hosting`), and so a channel takes eight bytes, the widest field first, where an Option makes it twelve.
#[derive(Clone, Copy)]
pub struct Channel {
    pub last: f32,
    pub known: bool,
    pub faults: u8,
}

// What a channel gives in a beat: its value, and what it keeps then.
#[derive(Clone, Copy)]
pub struct Sampled {
    pub value: i32,
    pub channel: Channel,
}

// What all channels give: their values, which go into the cells of a beat as they stand, and what they keep.
#[derive(Clone, Copy)]
pub struct Samples {
    pub values: [i32; CHANNELS],
    pub channels: [Channel; CHANNELS],
}

// The value of a number that converts, else 0.
fn value_of(x: f32) -> i32
    ensures { result ≡ value_of (thousandths_of x) }
{
    convert(x).unwrap_or(0)
}

// Whether a number converts.
fn converts(x: f32) -> bool
    ensures { result ≡ is_some (thousandths_of x) }
{
    convert(x).is_some()
}

// A faulty beat: the last good value serves, and the beat is counted. None where the channel was never good, or already had 25 faulty beats in a row.
#[tactic(auto, unfolding(crate::specs::Channel::sampled_fault))]
fn sample_fault(c: Channel) -> Option<Sampled>
    ensures { result ≡ sampled_fault c }
{
    if !c.known || MAX_FAULTS <= c.faults {
        return None;
    }
    Some(Sampled {
        value: value_of(c.last),
        channel: Channel {
            known: true,
            last: c.last,
            faults: c.faults + 1,
        },
    })
}

// A number of volts: one that converts is kept as received and ends a row of faults, any other is a fault.
fn sample_number(c: Channel, x: f32) -> Option<Sampled>
    ensures { result ≡ sampled_as c x (thousandths_of x) }
{
    match convert(x) {
        Some(value) => Some(Sampled {
            value,
            channel: Channel {
                known: true,
                last: x,
                faults: 0,
            },
        }),
        None => sample_fault(c),
    }
}

// What a channel makes of a reading.
pub fn sample(c: Channel, r: Reading) -> Option<Sampled>
    ensures { result ≡ sampled c r }
{
    match r {
        Reading::Volts(x) => sample_number(c, x),
        Reading::Break | Reading::Short => sample_fault(c),
    }
}

// What all channels make of their readings; none where one refuses.
pub fn sample_all(channels: [Channel; CHANNELS], readings: [Reading; CHANNELS]) -> Option<Samples>
    ensures { result ≡ sampled_all channels readings }
{
    let mut kept = channels;
    let mut values = [0; CHANNELS];
    for i in 0..CHANNELS {
        let s = sample(channels[i], readings[i])?;
        kept[i] = s.channel;
        values[i] = s.value;
    }
    Some(Samples {
        values,
        channels: kept,
    })
}

// Whether a channel is sound: never good and 0, or a good reading that converts and at most 25.
#[tactic(auto, unfolding(crate::specs::Channel::is_channel))]
fn is_channel(c: Channel) -> bool
    ensures { result ≡ is_channel c }
{
    if !c.known {
        return c.faults == 0;
    }
    converts(c.last) && c.faults <= MAX_FAULTS
}

// Whether all channels are sound.
pub fn are_channels(channels: [Channel; CHANNELS]) -> bool
    ensures { result ≡ are_channels channels channel_count }
{
    channels.iter().all(|c| is_channel(*c))
}

// The channels of power-on: never good, and 0.
pub fn fresh_channels() -> [Channel; CHANNELS]
    ensures { result ≡ fresh_channels }
{
    [Channel {
        known: false,
        last: 0.0,
        faults: 0,
    }; CHANNELS]
}
