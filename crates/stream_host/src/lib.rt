//! What a host may do next, and what a host that keeps to it has sent.
#![tactic(auto)]

mod counts;
mod host;
mod laws;
mod line;
mod polls;
mod reader;
mod resets;
mod shown;
mod stops;
mod unanswered;

pub use host::Host;
pub use host_journal::{HostPort, Reading, Stop};
pub use laws::{
    hosts_begin_epochs, hosts_get_banners_in_order, hosts_have_run, hosts_keep_to_their_count,
    hosts_raise_what_they_scan, hosts_send_their_lines, hosts_stop_at_an_alarm,
    hosts_wait_for_answers, links_carry_lines,
};
