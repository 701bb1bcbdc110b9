// A feed of bags gone over once: whether it is one, how many bags it has, and the moment of the last. Nothing is written.
#![tactic(auto)]

ghost use Rattle.std.specs.Prelude.{◌≡◌, ◌&&◌, not, ltb, length};
ghost use Rattle.definition.specs.Pinned.FeedReader.{bag_length, to_feed_bag, feed_bag_fits, feed_of};
ghost use Rattle.feed_bags.specs.Bags.{bags_told, bags_found};

use limits::{BAG_COUNT_AT, BAG_HEAD, COUNT_SIZE, MAX_BAGS, MAX_MOMENT, MESSAGE_SIZE};
use little_endian::{byte_at, front, rest};

// How many bags a feed has, and the moment of the last one, 0 where there is none.
#[derive(Clone, Copy)]
pub struct Bags {
    pub count: u16,
    pub last: u64,
}

// ---- the bag at the front of some bytes; bytes past the end count as 0

pub fn moment_of(here: &[u8]) -> u64
    ensures { result ≡ (to_feed_bag here.now).moment }
{
    little_endian::u64_at(here, 0)
}

// How many bytes it takes.
pub fn length_of(here: &[u8]) -> usize
    ensures { result ≡ bag_length here.now }
{
    BAG_HEAD + MESSAGE_SIZE * byte_at(here, BAG_COUNT_AT) as usize
}

// Its messages, as the bytes of a given bag.
pub fn bag_of<'a>(here: &'a [u8]) -> &'a [u8]
    ensures { result.now ≡ (to_feed_bag here.now).bag }
{
    let size = MESSAGE_SIZE * byte_at(here, BAG_COUNT_AT) as usize;
    front(rest(here, BAG_HEAD), size)
}

// It is not cut, and may stand where moments from `least` on are left.
fn stands(here: &[u8], least: u64) -> bool
    ensures { result ≡ (not (ltb (length here.now) (bag_length here.now)) && feed_bag_fits least (to_feed_bag here.now)) }
{
    if here.len() < length_of(here) {
        return false;
    }
    let moment = moment_of(here);
    (least <= moment) & (moment <= MAX_MOMENT) & call_bag::bag_fits(bag_of(here))
}

// ---- the feed

// "19 when the feed breaks its layout, has a port above 3 or has bytes left over"
pub fn find_bags(feed: &[u8]) -> Option<Bags>
    ensures { bags_found result ≡ bags_told (feed_of feed.now) }
{
    let count = little_endian::u16_at(feed, 0);
    if (feed.len() < COUNT_SIZE) | (MAX_BAGS < count) {
        return None;
    }
    let mut at = COUNT_SIZE;
    let mut least: u64 = 0;
    let mut last: u64 = 0;
    for _ in 0..count {
        let here = rest(feed, at);
        if !stands(here, least) {
            return None;
        }
        last = moment_of(here);
        least = last + 1;
        at += length_of(here);
    }
    if at != feed.len() {
        return None;
    }
    Some(Bags { count, last })
}
