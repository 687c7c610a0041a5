// What an edit of the names of streams makes of `hdrl`.
use unit_plan::CutAt;

/// What an edit of the names of streams makes of the list `hdrl`: the byte where it begins, the byte where it ends with its pad, the
/// spans that are replaced in it by place, whether each unit in the streams' lists fits its slot, how many bytes `hdrl` has then with
/// its header and pad, whether it lacks its pad byte then, and how many chunks the edited streams' lists have and how many then.
#[derive(Debug, Drop)]
pub struct NamesAt {
    pub at: u64,
    pub next: u64,
    pub cuts: Vec<CutAt>,
    pub fits: bool,
    pub len: u64,
    pub lacks_pad: bool,
    pub was: u64,
    pub now: u64,
}
