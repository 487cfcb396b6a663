//! Laws of writing names shorter.
ghost use Rattle.std.specs.Prelude.{ℕ, List, []};
ghost use Rattle.domain_compress.specs.Laws.{WritesOneList, WrittenReadsBack, StandsWithMore, StandsWhenCut, StandsWhenWrittenOver};
ghost use Rattle.domain_compress.specs.Laws.{AddedStands, AddedStays, RememberedStandWithMore, RememberedStandWhenCut};
ghost use Rattle.domain_compress.specs.Laws.{RememberedStandWhenWrittenOver};
ghost use Rattle.domain_compress.specs.Standing.{AllRememberedStand};

/// What holds of what is written for a name. The call does nothing: its contract is the laws.
///
/// The octets are one list, and so are the labels that are spelled out. They are read back as an equal name,
/// and are no more than the wire format. What a message reads at an offset is read there after more octets, too,
/// and where octets are cut after those that it stands in.
///
/// Suppose that each name at a remembered offset is read from the octets between n and its end alone. Then the next
/// name is written so that it is, too. This stays so after more octets, after a cut and whatever is written over the
/// octets before n. A message that is started with n octets, before a composer remembers an offset, has no other
/// names. So a name that was written is read at its offset when more octets stand after it, and the header is written
/// over.
pub fn compress_laws()
    ensures once { WritesOneList }
    ensures reads_back { WrittenReadsBack }
    ensures more { StandsWithMore }
    ensures cut { StandsWhenCut }
    ensures kept { StandsWhenWrittenOver }
    ensures remembered_added { AddedStands }
    ensures stays { AddedStays }
    ensures remembered_none { (n : ℕ) (t : List ℕ) → AllRememberedStand n t [] }
    ensures remembered_more { RememberedStandWithMore }
    ensures remembered_cut { RememberedStandWhenCut }
    ensures remembered_kept { RememberedStandWhenWrittenOver }
{}
