//! A composer of one's own: one that counts the names that are appended, and appends them to another.
ghost use Rattle.std.specs.Prelude.{◌<◌};

use domain_rdata::Composer;
use octseq::{Octets, OctetsBuilder, OctetsMut, Truncate};

/// A composer, and how many names were appended to it, at most the greatest number of 32 bits.
#[derive(Drop)]
pub struct Counted<T: Composer> {
    pub target: T,
    pub names: u32,
}

impl<T: Composer> Octets for Counted<T> {
    ghost octets = { λ it. T.octets it.target };

    ghost capacity = { λ it. T.capacity it.target };

    ghost limit = { T.limit };

    fn as_slice(&self) -> &[u8] {
        self.target.as_slice()
    }
}

impl<T: Composer> OctetsMut for Counted<T> {
    ghost with_octets = { λ it w. record it { target = T.with_octets it.target w } };

    fn as_slice_mut(&mut self) -> &mut [u8] {
        self.target.as_slice_mut()
    }

    ghost written = { λ it w h. T.written it.target w h };

    ghost number_stays = { λ it w. T.number_stays it.target w };

    ghost room_stays = { λ it w. T.room_stays it.target w };
}

impl<T: Composer> Truncate for Counted<T> {
    ghost cuts = { λ it n new. T.cuts it.target n new.target };

    fn truncate(&mut self, len: usize) {
        self.target.truncate(len);
    }

    ghost cut = { λ it new. T.cut it.target new.target };
}

impl<T: Composer> OctetsBuilder for Counted<T> {
    type AppendError = T::AppendError;

    ghost extends = { λ it s new. T.extends it.target s new.target };

    fn append_slice(&mut self, slice: &[u8]) -> Result<(), T::AppendError> {
        self.target.append_slice(slice)
    }

    ghost extended = { λ it new. T.extended it.target new.target };

    ghost joined = { λ it middle new. T.joined it.target middle.target new.target };

    ghost fixed = { λ it. T.fixed it.target };
}

/// Names are written as the target writes them. It remembers what the target does: the number decides nothing of what
/// is appended, and a cut leaves it.
impl<T: Composer> Composer for Counted<T> {
    ghost may_append = { λ it. T.may_append it.target };

    ghost compresses = { T.compresses };

    ghost Memory = { T.Memory };

    ghost memory = { λ it. T.memory it.target };

    ghost kept_within = { T.kept_within };

    ghost appends = { λ it labels new. T.appends it.target labels new.target };

    fn append_flat_name(&mut self, name: &[u8]) -> Result<(), T::AppendError> {
        self.target.append_flat_name(name)?;
        self.names = self.names.saturating_add(1);
        Ok(())
    }

    fn can_compress(&self) -> bool {
        self.target.can_compress()
    }

    ghost appended = { λ it new. T.appended it.target new.target };

    ghost decides = { λ it new. T.decides it.target new.target };

    ghost octets_leave = { λ it new. T.octets_leave it.target new.target };

    ghost writing_leaves = { λ it. T.writing_leaves it.target };

    ghost cut_keeps = { λ it new. T.cut_keeps it.target new.target };

    ghost all_kept = { λ it. T.all_kept it.target };

    ghost name_forgotten = { λ it new. T.name_forgotten it.target new.target };

    ghost kept_twice = { T.kept_twice };

    ghost reads_back = { λ it. T.reads_back it.target };

    ghost flat = { λ it. T.flat it.target };
}
