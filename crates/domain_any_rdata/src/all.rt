//! Record data of any type in a message.
ghost use Rattle.std.specs.Prelude.{◌≡◌, ◌≤◌, length, not, nat_le, false, true, ◌&&◌, None, IfOk, IfErr};
ghost use Rattle.domain_descriptor.specs.Fields.{AreData, AreNoData};
ghost use Rattle.domain_descriptor.specs.Table.{compresses_names, known_fields};
ghost use Rattle.domain_descriptor.specs.Rdatas.{rdata_kinds, rdata_type, rdata_class, rdata_message, rdata_begin};
ghost use Rattle.octseq.specs.Parsing.{message, position};
ghost use Rattle.domain_header.specs.Values.{class_number};
ghost use Rattle.domain_rdata.specs.Rtypes.{rtype_number};
ghost use Rattle.domain_fields.specs.Parts.{parts_octets};
ghost use Rattle.domain_any_rdata.specs.Composing.{PartsComposed, parts_written, parts_write, composed_form, type_plain, type_flat};
ghost use Rattle.domain_any_rdata.specs.Parts.{AreNamed, AreNamed_prop, IsDataOf, raw_octets, rdata_parts};

use crate::compose::compose_fields;
use crate::len::uncompressed_len;
use crate::name_form::NameForm;
use domain_descriptor::{DataFault, Rdata, compresses_names, fields_of};
use domain_header::Class;
use domain_rdata::{CanonicalRecordData, ComposeRecordData, Composer, RecordData, Rtype};
use octseq::Parser;

/// The data of a record in a message: exactly the fields of its type. It borrows the octets.
///
/// Data of an unknown type or class is one field of octets (RFC 3597).
#[derive(Clone, Copy, Debug)]
pub struct AllRecordData<'m> {
    rdata: Rdata<'m>,
    octets: &'m [u8],
    ghost whole: { octets.now ≡ raw_octets rdata },
    ghost known: { rdata_kinds rdata ≡ known_fields (rdata_type rdata) (rdata_class rdata) },
    ghost certain: { IsDataOf rdata },
    ghost named: { AreNamed (rdata_parts rdata) } by { AreNamed_prop (rdata_parts rdata) },
}

impl<'m> AllRecordData<'m> {
    ghost use Rattle.domain_any_rdata.specs.AllData.{IsAllData, data_of, data_type, data_class, is_known_data, has_lowered_names};

    /// Reads the octets from `begin` to the end of the message as data of this type in this class (RFC 1035, 3.2.1).
    ///
    /// # Errors
    ///
    /// Returns the first error from the left, like [`domain_descriptor::check_data`].
    pub fn parse(
        rtype: Rtype,
        class: Class,
        message: &'m [u8],
        begin: usize,
    ) -> Result<AllRecordData<'m>, DataFault>
        requires { begin ≤ length message.now }
        ensures ok { IfOk result
            (IsAllData (rtype_number rtype) (class_number class) message.now begin) }
        ensures whole { IfOk result (λ it.
            AreData (known_fields (rtype_number rtype) (class_number class)) message.now begin) }
        ensures err { IfErr result
            (AreNoData (known_fields (rtype_number rtype) (class_number class)) message.now begin) }
    {
        match Rdata::parse(rtype.to_int(), class.to_int(), message, begin) {
            Ok(rdata) => Ok(AllRecordData {
                rdata,
                octets: &message[begin..],
            }),
            Err(fault) => Err(fault),
        }
    }

    /// Returns the type, the class and the fields.
    pub fn rdata(&self) -> Rdata<'m>
        ensures { result ≡ data_of self.now }
    {
        self.rdata
    }

    /// Returns the octets of the data as they are in the message: a name may end in a pointer.
    pub fn octets(&self) -> &'m [u8]
        ensures { result.now ≡ raw_octets (data_of self.now) }
    {
        self.octets
    }

    /// Returns a parser of the message that stands at the data and ends with it. A type of its own reads the data by
    /// it: `Mx::parse_rdata(data.rtype(), &mut data.parser())`.
    pub fn parser(&self) -> Parser<'m>
        ensures message { message result ≡ rdata_message (data_of self.now) }
        ensures offset { position result ≡ rdata_begin (data_of self.now) }
    {
        let message = self.rdata.message();
        Parser::with_range(message, self.rdata.begin()..message.len())
    }

    /// Returns the class of the record.
    pub fn class(&self) -> Class
        ensures { class_number result ≡ data_class self.now }
    {
        Class::from_int(self.rdata.class())
    }

    /// Returns whether the fields are known: the table has the type, with fields in this class.
    pub fn is_known(&self) -> bool
        ensures { result ≡ is_known_data self.now }
    {
        fields_of(self.rdata.rtype(), self.rdata.class()).is_some()
    }

    /// Returns whether the canonical form has names in lowercase (RFC 4034, 6.2; RFC 6840, 5.1). If the fields aren't
    /// known, neither is which octets are names.
    pub(crate) fn lowers_names(&self) -> bool
        ensures { result ≡ has_lowered_names self.now }
    {
        self.is_known() && self.rtype().has_lowercase_names()
    }
}

/// The type of the record.
impl<'m> RecordData for AllRecordData<'m> {
    ghost use Rattle.domain_any_rdata.specs.AllData.{data_type};

    ghost type_number = { data_type };

    fn rtype(&self) -> Rtype {
        Rtype::from_int(self.rdata.rtype())
    }
}

/// The fields, one after another. Names are compressed for the types of RFC 1035 alone (RFC 3597, 4).
impl<'m> ComposeRecordData for AllRecordData<'m> {
    ghost use Rattle.domain_any_rdata.specs.AllData.{data_type, data_parts, known_form};

    ghost composed = { λ it. PartsComposed (data_parts it) (composed_form (compresses_names (data_type it))) };

    ghost written = { λ it. parts_written (data_parts it) (composed_form (compresses_names (data_type it))) };

    ghost uncompressed = { λ it. parts_octets false (data_parts it) };

    ghost lowercase = { known_form };

    ghost knows_len = { λ it c. not (c && compresses_names (data_type it))
        && nat_le (length (parts_octets false (data_parts it))) 65535 };

    #[tactic(auto, using(crate::proofs::Forms::len_known, crate::proofs::Forms::no_left, crate::proofs::Forms::no_right))]
    fn rdlen(&self, compress: bool) -> Option<u16> {
        if compress && compresses_names(self.rdata.rtype()) {
            return None;
        }
        uncompressed_len(&self.rdata)
    }

    fn compose_rdata<Target: Composer>(
        &self,
        target: &mut Target,
    ) -> Result<(), Target::AppendError> {
        match compresses_names(self.rdata.rtype()) {
            true => compose_fields(&self.rdata, NameForm::Compressed, target),
            false => compose_fields(&self.rdata, NameForm::Whole(false), target),
        }
    }

    fn compose_canonical_rdata<Target: Composer>(
        &self,
        target: &mut Target,
    ) -> Result<(), Target::AppendError> {
        compose_fields(&self.rdata, NameForm::Whole(self.lowers_names()), target)
    }

    ghost plain = { λ it c t. type_plain (compresses_names (data_type it)) (data_parts it) c t it.named };

    ghost flat = { λ it t s. type_flat (compresses_names (data_type it)) (data_parts it) t s };

    ghost writes_composed = { λ it. parts_write (data_parts it) (composed_form (compresses_names (data_type it))) };
}

/// The names are known if the fields are.
impl<'m> CanonicalRecordData for AllRecordData<'m> {
    #[tactic(auto, using(crate::proofs::Forms::known_is))]
    fn knows_names(&self) -> bool {
        self.is_known() || !self.rtype().has_lowercase_names()
    }
}
