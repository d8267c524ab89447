// The start of a session.
ghost use Rattle.std.specs.Prelude.{◌≡◌};
ghost use Rattle.calls.specs.Calls.{bad_config, blank_session, starting};

use answers::start_records;
use replies::{Answer, idle_answer, refuse};
use session::{Session, fresh_session};
use text::{empty_name, read_name};
use wishes::Refusal;

// What a refused start hands back.
fn blank_session() -> Session
    ensures { result ≡ blank_session }
{
    fresh_session(0, empty_name())
}

pub fn config_bad(chunk: u32, version: &[u8]) -> bool
    ensures { result ≡ bad_config chunk version.now }
{
    chunk == 0 || 2147483647 < chunk || 128 < version.len()
}

#[tactic(auto, using(crate::proofs::StartsLaws::good_version), unfolding(crate::specs::Calls::starting))]
pub fn start(
    chunk_size: u32,
    window_ack_size: u32,
    peer_bandwidth: u32,
    on_bw_done: bool,
    fms_version: &[u8],
    clock: u64,
    out: &mut [u8],
) -> Answer
    ensures { (result, out.new) ≡ starting chunk_size window_ack_size peer_bandwidth on_bw_done fms_version.now clock out.old }
{
    if config_bad(chunk_size, fms_version) {
        return refuse(Err(Refusal::BadConfig), blank_session());
    }
    let Some(version) = read_name(fms_version) else {
        return refuse(Err(Refusal::BadConfig), blank_session());
    };
    match start_records(out, chunk_size, window_ack_size, peer_bandwidth, on_bw_done) {
        Some(count) => idle_answer(fresh_session(clock, version), count),
        None => refuse(Err(Refusal::NoRoom), blank_session()),
    }
}
