// Addresses of the network, and their text.
ghost use Rattle.std.specs.Prelude.{Some};
ghost use Rattle.rt_base.specs.Address.{address_text, groups_text, ip_text};

use std::fmt;

/// An internet address: four bytes, or eight groups of 16 bits.
#[derive(Clone, Copy, Debug, PartialEq, Eq, Hash)]
pub enum Ip {
    V4([u8; 4]),
    V6([u16; 8]),
}

/// An internet address and a port.
#[derive(Clone, Copy, Debug, PartialEq, Eq, Hash)]
pub struct Addr {
    pub ip: Ip,
    pub port: u16,
}

impl fmt::Display for Addr {
    ghost output = { λ a. Some (address_text a) };

    fn fmt<W: fmt::Write>(&self, f: &mut fmt::Formatter<W>) -> fmt::Result {
        let ip = self.ip;
        let port = self.port;
        write!(f, "{ip}:{port}")
    }
}

impl fmt::Display for Ip {
    ghost output = { λ ip. Some (ip_text ip) };

    fn fmt<W: fmt::Write>(&self, f: &mut fmt::Formatter<W>) -> fmt::Result {
        match *self {
            Ip::V4(bytes) => {
                let [a, b, c, d] = bytes;
                write!(f, "{a}.{b}.{c}.{d}")
            }
            Ip::V6(groups) => {
                let [a, b, c, d, e, g, h, i] = groups;
                let high = Groups(a, b, c, d);
                let low = Groups(e, g, h, i);
                write!(f, "[{high}:{low}]")
            }
        }
    }
}

// Four groups of a V6 address, which print in lower-case hex with colons.
#[derive(Clone, Copy)]
struct Groups(u16, u16, u16, u16);

impl fmt::Display for Groups {
    ghost output = { λ g. Some (groups_text g.0 g.1 g.2 g.3) };

    fn fmt<W: fmt::Write>(&self, f: &mut fmt::Formatter<W>) -> fmt::Result {
        let Groups(a, b, c, d) = *self;
        write!(f, "{a:x}:{b:x}:{c:x}:{d:x}")
    }
}
