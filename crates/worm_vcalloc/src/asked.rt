ghost use Rattle.std.specs.Prelude.{◌≡◌, ℕ, ◌<◌, ◌≤◌, ◌&&◌, ◌||◌, not, nat_lt, replicate, slice_index_or};
ghost use Rattle.worm_vcalloc.specs.Asked.{AreAllowed, IsFiled};
ghost use Rattle.worm_vcalloc.specs.ChannelSet.{has};

use crate::channel_set::ChannelSet;
use crate::request::VcRequests;
use worm_flit::SmallSet;

/// What the input channels wait for, filed by output port and channel. To keep it between passes saves no time.
#[derive(Drop)]
pub(crate) struct Asked {
    /// The input channels that ask for each output port; where a port has one channel, those for which it will do.
    by_port: [ChannelSet; 7],
    /// The input channels for which each channel will do, at any output port; nothing where a port has one channel.
    by_channel: [ChannelSet; 8],
    ports: SmallSet,
}

impl Asked {
    pub(crate) fn new() -> Asked
        ensures { result ≡ record { by_port = replicate 7 0; by_channel = replicate 8 0; ports = 0 } }
    {
        Asked {
            by_port: [ChannelSet::new(); 7],
            by_channel: [ChannelSet::new(); 8],
            ports: SmallSet::new(),
        }
    }

    /// In place: files moved in would be read 16 bytes at a time right after stores of 8, which are not forwarded.
    pub(crate) fn file(&mut self, waiting: &VcRequests, ports: u8, vcs: u8)
        requires few_ports { ports ≤ 7 }
        requires few_channels { vcs ≤ 8 }
        requires empty { self.old ≡ record { by_port = replicate 7 0; by_channel = replicate 8 0; ports = 0 } }
        ensures { IsFiled waiting.now ports vcs self.new }
    {
        let mut left = waiting.waiting();
        while let Some((port, vc)) = left.pop_first() {
            let request = waiting.request(port, vc);
            if port < ports && vc < vcs && request.out < ports {
                let allowed = SmallSet::from_bits(request.allowed);
                let fits = (vcs > 1) | allowed.contains(0);
                self.by_port[request.out as usize].put(port, vc, fits);
                self.ports.put(request.out, true);
                if vcs > 1 {
                    file_allowed(&mut self.by_channel, port, vc, allowed);
                }
            }
        }
    }

    pub(crate) fn ports(&self) -> SmallSet
        ensures { result ≡ self.now.ports }
    {
        self.ports
    }

    pub(crate) fn asking(&self, out: u8, channel: u8, vcs: u8) -> ChannelSet
        requires out { out < 7 }
        requires channel { channel < 8 }
        ensures { (p v : ℕ) → has result p v
            ≡ (has (slice_index_or self.now.by_port out 0) p v
            && (not (nat_lt 1 vcs) || has (slice_index_or self.now.by_channel channel 0) p v)) }
    {
        let by_port = &self.by_port[out as usize];
        if vcs > 1 {
            let by_channel = &self.by_channel;
            by_port.intersection(&by_channel[channel as usize])
        } else {
            *by_port
        }
    }
}

fn file_allowed(by_channel: &mut [ChannelSet; 8], port: u8, vc: u8, allowed: SmallSet)
    requires port { port < 7 }
    requires vc { vc < 8 }
    ensures { AreAllowed by_channel.old by_channel.new port vc allowed }
{
    let mut left = allowed;
    while let Some(channel) = left.pop_first() {
        by_channel[channel as usize].put(port, vc, true);
    }
}
