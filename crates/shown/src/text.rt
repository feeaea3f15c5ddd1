// Places, ways, bytes and chains, to be shown.
ghost use Rattle.std.specs.Prelude.{◌≡◌, Some};
ghost use Rattle.std.specs.Fmt.{WritesOnOk};
ghost use Rattle.shown.specs.Texts.{byte_text, hex_text, link_text, number_of, number_text, neighbour_text, place_text, way_text, packet_text, chain_text, NeighbourOf, PlaceOf};

use chain::handover::Handover;
use chain::place::{Place, Standing};
use chain::way::{Link, Way};
use flow::key::FlowKey;
use std::fmt;

#[derive(Drop)]
pub struct HexText<'a>(pub &'a [u8]);

impl fmt::Display for HexText<'_> {
    ghost output = { λ t. Some (hex_text t.0.now) };

    fn fmt<W: fmt::Write>(&self, f: &mut fmt::Formatter<W>) -> fmt::Result {
        for byte in self.0 {
            write_byte(f, *byte)?;
        }
        Ok(())
    }
}

// Not in the loop above: there it isn't known that a byte of a struct's slice is below 256, which two digits need.
fn write_byte<W: fmt::Write>(f: &mut fmt::Formatter<W>, byte: u8) -> fmt::Result
    ensures { WritesOnOk W.Write.write_str_gives f.old result (byte_text byte) f.new }
{
    write!(f, "{byte:02x}")
}

#[derive(Drop)]
pub struct LinkText(pub Link);

impl fmt::Display for LinkText {
    ghost output = { λ t. Some (link_text t.0) };

    fn fmt<W: fmt::Write>(&self, f: &mut fmt::Formatter<W>) -> fmt::Result {
        write!(f, "place {} of house {}", self.0.place, self.0.server)
    }
}

impl From<Link> for LinkText {
    ghost from_gives = { λ link t. t.0 ≡ link };

    fn from(link: Link) -> LinkText {
        LinkText(link)
    }
}

// The number of a place alone.
#[derive(Drop)]
pub struct NumberText(u32);

impl From<Link> for NumberText {
    ghost from_gives = { λ link t. number_of t ≡ link.place };

    fn from(link: Link) -> NumberText {
        NumberText(link.place)
    }
}

impl fmt::Display for NumberText {
    ghost output = { λ t. Some (number_text t) };

    fn fmt<W: fmt::Write>(&self, f: &mut fmt::Formatter<W>) -> fmt::Result {
        write!(f, "{}", self.0)
    }
}

// A neighbour, if there is one.
#[derive(Drop)]
pub struct NeighbourText<N>(pub Option<N>);

impl<N: From<Link>> From<Option<Link>> for NeighbourText<N> {
    ghost from_gives = { λ link t. NeighbourOf N.from_gives link t.0 };

    fn from(link: Option<Link>) -> NeighbourText<N> {
        match link {
            Some(link) => NeighbourText(Some(N::from(link))),
            None => NeighbourText(None),
        }
    }
}

impl<N: fmt::Display> fmt::Display for NeighbourText<N> {
    ghost output = { λ t. neighbour_text N.output t.0 };

    fn fmt<W: fmt::Write>(&self, f: &mut fmt::Formatter<W>) -> fmt::Result {
        match &self.0 {
            Some(neighbour) => write!(f, "{neighbour}"),
            None => f.write_str("none"),
        }
    }
}

// A place and its neighbours, each shown as an `N`.
#[derive(Drop)]
pub enum PlaceText<N> {
    Never(LinkText),
    Stands {
        here: LinkText,
        before: NeighbourText<N>,
        after: NeighbourText<N>,
    },
    Forgotten {
        here: LinkText,
        after: N,
    },
}

impl<N: From<Link>> From<Place> for PlaceText<N> {
    ghost from_gives = { PlaceOf N.from_gives };

    fn from(place: Place) -> PlaceText<N> {
        let here = LinkText(place.link);
        match place.standing {
            Standing::Never => PlaceText::Never(here),
            Standing::Stands { before, after } => PlaceText::Stands {
                here,
                before: NeighbourText::from(before),
                after: NeighbourText::from(after),
            },
            Standing::Forgotten { after } => PlaceText::Forgotten {
                here,
                after: N::from(after),
            },
        }
    }
}

impl<N: fmt::Display> fmt::Display for PlaceText<N> {
    ghost output = { place_text N.output };

    fn fmt<W: fmt::Write>(&self, f: &mut fmt::Formatter<W>) -> fmt::Result {
        match self {
            PlaceText::Never(here) => write!(f, "{here} does not stand yet"),
            PlaceText::Stands {
                here,
                before,
                after,
            } => write!(f, "{here} stands, before it {before}, after it {after}"),
            PlaceText::Forgotten { here, after } => {
                write!(f, "{here} is forgotten, after it {after}")
            }
        }
    }
}

#[derive(Drop)]
struct WayText(Way);

impl fmt::Display for WayText {
    ghost output = { λ t. Some (way_text t.0) };

    fn fmt<W: fmt::Write>(&self, f: &mut fmt::Formatter<W>) -> fmt::Result {
        match self.0 {
            Way::Up => f.write_str("up"),
            Way::Down(by) => write!(f, "down for place {}", by.place),
            Way::Asked(by) => write!(f, "asked by place {}", by.place),
        }
    }
}

#[derive(Drop)]
pub struct PacketText {
    pub flow: FlowKey,
    pub place: u32,
    pub way: Way,
    pub opens: bool,
}

impl fmt::Display for PacketText {
    ghost output = { λ t. Some (packet_text t) };

    fn fmt<W: fmt::Write>(&self, f: &mut fmt::Formatter<W>) -> fmt::Result {
        let opens = if self.opens { ", may open" } else { "" };
        write!(
            f,
            "packet {} to place {}, {}{opens}",
            self.flow,
            self.place,
            WayText(self.way)
        )
    }
}

// A chain as the controller keeps it, newest first.
#[derive(Drop)]
pub struct ChainText<'a> {
    pub links: &'a [Link],
    pub handover: Handover,
}

impl fmt::Display for ChainText<'_> {
    ghost output = { λ t. Some (chain_text t.links.now t.handover) };

    fn fmt<W: fmt::Write>(&self, f: &mut fmt::Formatter<W>) -> fmt::Result {
        f.write_str("office keeps")?;
        for link in self.links {
            write!(f, " {},", LinkText(*link))?;
        }
        match self.handover {
            Handover::Idle => f.write_str(" no change of hands"),
            Handover::AwaitStood(link) => write!(f, " waits for {} to stand", LinkText(link)),
            Handover::AwaitTold(link) => write!(
                f,
                " waits for the newest to be told of {}",
                LinkText(link)
            ),
        }
    }
}
