// The C interface: the two entry points under plain names, with the paper's number as the answer and each further value through a pointer.
// include/tunebobbin.h is the same for a reader of C.
#![tactic(auto)]

ghost use Rattle.std.specs.Prelude.{◌≡◌, length};
ghost use Rattle.rules.specs.Refusals.{check, run, run_says, list_after};

// The check of a table: answers the number, 0 for a table that is taken, and writes the place and both counts.
#[unsafe(no_mangle)]
pub extern "C" fn tunebobbin_check(
    table: &[u8],
    place: &mut usize,
    nodes: &mut usize,
    channels: &mut usize,
) -> usize
    ensures { record { number = result; place = place.new; nodes = nodes.new; channels = channels.new } ≡ check table.now }
{
    match table::check(table) {
        Ok(counts) => {
            *place = 0;
            *nodes = counts.nodes;
            *channels = counts.channels;
            0
        }
        Err(why) => {
            *place = why.place();
            *nodes = 0;
            *channels = 0;
            why.number()
        }
    }
}

// A run of a table: answers the number, 0 where the horizon was reached, and writes the place or the instant, the channel and the count
// of words, which stand in front of the list.
#[unsafe(no_mangle)]
pub extern "C" fn tunebobbin_run(
    table: &[u8],
    horizon: usize,
    arrivals: &[u64],
    list: &mut [u64],
    place: &mut usize,
    channel: &mut usize,
    count: &mut usize,
) -> usize
    ensures answer { record { number = result; place = place.new; channel = channel.new; count = count.new }
        ≡ run_says (run table.now horizon arrivals.now (length list.old)) }
    ensures list { list.new ≡ list_after (run table.now horizon arrivals.now (length list.old)) list.old }
{
    match engine::run(table, horizon, arrivals, list) {
        Ok(ran) => {
            *place = ran.end.instant();
            *channel = ran.end.channel();
            *count = ran.count;
            ran.end.number()
        }
        Err(why) => {
            *place = why.place();
            *channel = 0;
            *count = 0;
            why.number()
        }
    }
}
