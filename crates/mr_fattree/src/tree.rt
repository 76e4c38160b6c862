//! Fat trees.

ghost use Rattle.std.specs.Prelude.{◌≡◌, ◌<◌, List, length, IfOk};
ghost use Rattle.mr_topo.specs.Routes.{flow_of, IsFlow, Delivers, LeadsBack};
ghost use Rattle.mr_fattree.specs.declared.Level.{Level};
ghost use Rattle.mr_fattree.specs.Tree.{IsTree, IsShape, fat_tree};
ghost use Rattle.mr_fattree.specs.Walk.{hops_of};

use crate::{Level, levels, shape};
use mr_flow::{Packet, Peer, ShapeFault};
use std::alloc::Global;
use std::marker::Model;

/// Routers in one to four levels above the endpoints. Contracts see it as the list of the levels' ports, from the endpoints up.
#[derive(Drop)]
pub struct FatTree {
    levels: Vec<Level>,
}

impl Model for FatTree {
    ghost use Rattle.std.specs.Prelude.{List};
    ghost use Rattle.mr_fattree.specs.declared.Level.{Level};
    ghost use Rattle.mr_fattree.specs.Tree.{IsTree};

    ghost Value = { List Level };

    ghost view = { λ t. t.levels.items };

    ghost invariant = { λ t. IsTree t.levels.items };
}

impl FatTree {
    /// The fat tree of a shape's text, as `2,2:4`: one to four levels joined by `:`, from the endpoints up. A level is its ports down
    /// and its ports up joined by a comma, the last its ports down alone, each from 1 to 128. It is `Form` exactly where the text isn't
    /// of that form, or gives more than 65,536 routers or 4,096 endpoints, and `NoMemory` where no memory is left.
    pub fn read(alloc: Global, shape: &[u8]) -> Result<FatTree, ShapeFault>
        ensures ok { IfOk result (λ t. IsShape t shape.now) }
        ensures form { result ≡ Err ShapeFault.Form → (ls : List Level) → IsShape ls shape.now → ⊥ }
    {
        let levels = shape::levels_in(alloc, shape)?;
        Ok(FatTree { levels })
    }

    /// The output port of a packet at a router, and the channel on that port: down where the destination is below the router, and else
    /// up by a port that the destination's number gives, as in Merlin. It takes no memory.
    pub fn route(&self, router: u32, packet: &Packet) -> (u16, u8)
        requires router { router < (fat_tree self.now).routers }
        requires flow { IsFlow (fat_tree self.now) (flow_of packet.now) }
        ensures { result ≡ (fat_tree self.now).route router (flow_of packet.now) }
    {
        let place = levels::place_of(&self.levels, router);
        (levels::port_at(&self.levels, place, packet.dst), packet.vn)
    }

    /// Where a router's port leads: of a level's ports those down come first, to endpoints or to the level below, then those up. It is
    /// never None. It takes no memory.
    pub fn peer(&self, router: u32, port: u16) -> Option<Peer>
        requires router { router < (fat_tree self.now).routers }
        requires port { port < (fat_tree self.now).ports router }
        ensures { result ≡ (fat_tree self.now).peer router port }
    {
        let place = levels::place_of(&self.levels, router);
        Some(levels::peer_at(&self.levels, place, port))
    }

    /// A law: each packet comes to its destination, up to the lowest level at which it is below the router's group and then down, and
    /// ports lead back.
    #[tactic(auto, using(crate::proofs::Walk::tree_delivers, crate::proofs::Back::tree_back))]
    pub fn laws(&self)
        ensures delivers { Delivers (fat_tree self.now) (hops_of self.now) }
        ensures back { LeadsBack (fat_tree self.now) }
    {
        let _ = &self.levels;
    }

    /// The ports of each level, from the endpoints up.
    pub fn levels(&self) -> &[Level]
        ensures { result.now ≡ self.now }
    {
        &self.levels
    }

    /// How many routers there are.
    pub fn routers(&self) -> u32
        ensures { result ≡ (fat_tree self.now).routers }
    {
        levels::before_of(&self.levels, self.levels.len()) as u32
    }

    /// How many endpoints there are.
    pub fn endpoints(&self) -> u32
        ensures { result ≡ (fat_tree self.now).endpoints }
    {
        levels::downs_of(&self.levels) as u32
    }

    /// How many ports a router has.
    pub fn ports(&self, router: u32) -> u16
        requires { router < (fat_tree self.now).routers }
        ensures { result ≡ (fat_tree self.now).ports router }
    {
        let place = levels::place_of(&self.levels, router);
        levels::ports_at(&self.levels, place.level)
    }
}
