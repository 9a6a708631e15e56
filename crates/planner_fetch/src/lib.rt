// One plan fetched from a stored list.
#![tactic(auto)]

ghost use Rattle.std.specs.Prelude.{◌≡◌};
ghost use Rattle.network.specs.Fetching.{fetch_links, fetch_number};
ghost use Rattle.network.specs.Promise.{LinksKept, NumberKept};

// The number of fetching plan r from a list: 0 if it is found.
pub fn fetch_number(list: &[u8], r: u32) -> u8
    ensures reply { result ≡ fetch_number list.now r }
    ensures kept { NumberKept list.now r result }
{
    planlist_fetching::finding::fetch_number(list, r)
}

// The link bytes of plan r, a part of the list; an empty part if the number is not 0.
pub fn fetch_links<'a>(list: &'a [u8], r: u32) -> &'a [u8]
    ensures reply { result.now ≡ fetch_links list.now r }
    ensures kept { LinksKept list.now r result.now }
{
    planlist_fetching::fetching::fetch_links(list, r)
}
