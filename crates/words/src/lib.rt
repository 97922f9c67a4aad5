// A word, an arrival or an output: its channel, its time and its value, a function for each definition of the rules.
#![tactic(auto)]

ghost use Rattle.std.specs.Prelude.{◌≡◌, ◌^◌, ◌<◌};
ghost use Rattle.rules.specs.Instant.{word, channel_in, time_in, value_in};

pub fn channel_in(w: u64) -> usize
    ensures { result ≡ channel_in w }
{
    (w / 0x100_0000_0000_0000) as usize
}

pub fn time_in(w: u64) -> u32
    ensures { result ≡ time_in w }
{
    (w / 0x1_0000_0000 % 0x100_0000) as u32
}

pub fn value_in(w: u64) -> i32
    ensures { result ≡ value_in w }
{
    fields::signed((w % 0x1_0000_0000) as u32)
}

pub fn word(channel: usize, time: u32, value: i32) -> u64
    requires { (channel < 256) × (time < 2 ^ 24) }
    ensures { result ≡ word channel time value }
{
    channel as u64 * 0x100_0000_0000_0000
        + u64::from(time) * 0x1_0000_0000
        + u64::from(fields::pattern(value))
}
