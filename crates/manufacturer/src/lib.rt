// Makers of recorders and their codes, as src/util/manufacturer.rs has them. The codes stand in one list, `listed`: the
// readers search it from the top, in the order of the definition `known`, and the writers ask it at the maker's place.
#![tactic(auto)]

ghost use Rattle.std.specs.Prelude.{◌≡◌, ℕ, ◌<◌, get_or};
ghost use Rattle.manufacturer.specs.Maker.{letter_of_lem, triple_of, known, letter_maker, triple_maker, triple_number};
ghost use Rattle.manufacturer.specs.Maker.{row_letter, is_letter};

use Manufacturer::*;
use field::Mnemonic;

#[derive(Clone, Copy)]
pub enum Manufacturer {
    Aircotec,
    CambridgeAeroInstruments,
    ClearNavInstruments,
    DataSwan,
    EwAvionics,
    Filser,
    Flarm,
    Flytech,
    Garrecht,
    ImiGlidingEquipment,
    Logstream,
    LxNavigation,
    LxNav,
    Naviter,
    NewTechnologies,
    NielsenKellerman,
    Peschges,
    PressFinishElectronics,
    PrintTechnik,
    Scheffel,
    StreamlineDataInstruments,
    TriadisEngineering,
    Zander,
    UnknownSingle(u8),
    UnknownTriple(Mnemonic),
}

// A row of the list: a maker's letter, or NONE, its triple, and the maker.
#[derive(Clone, Copy)]
struct Row(u8, Mnemonic, Manufacturer);

// Stands in a row for the letter of a maker that has none. It is a byte, and no `Option<u8>`, so that a search
// compares one byte a row: of such a search the compiler makes a table.
const NONE: u8 = 0;

// How many rows the list has.
const KNOWN: usize = 23;

// The list of makers, a row a place. No code of a maker stands anywhere else.
#[tactic(auto, unfolding(crate::specs::Maker::letter_of_lem, crate::specs::Maker::triple_of))]
fn listed(place: usize) -> Row
    requires { place < 23 }
    ensures { (result.2 ≡ get_or known place Manufacturer.Zander) × (Some result.1 ≡ triple_of result.2)
        × (row_letter result.0 ≡ letter_of_lem result.2) }
{
    match place {
        0 => Row(b'I', Mnemonic(b'A', b'C', b'T'), Aircotec),
        1 => Row(b'C', Mnemonic(b'C', b'A', b'M'), CambridgeAeroInstruments),
        2 => Row(NONE, Mnemonic(b'C', b'N', b'I'), ClearNavInstruments),
        3 => Row(b'D', Mnemonic(b'D', b'S', b'X'), DataSwan),
        4 => Row(b'E', Mnemonic(b'E', b'W', b'A'), EwAvionics),
        5 => Row(b'F', Mnemonic(b'F', b'I', b'L'), Filser),
        6 => Row(b'G', Mnemonic(b'F', b'L', b'A'), Flarm),
        7 => Row(NONE, Mnemonic(b'F', b'L', b'Y'), Flytech),
        8 => Row(b'A', Mnemonic(b'G', b'C', b'S'), Garrecht),
        9 => Row(b'M', Mnemonic(b'I', b'M', b'I'), ImiGlidingEquipment),
        10 => Row(NONE, Mnemonic(b'L', b'G', b'S'), Logstream),
        11 => Row(b'L', Mnemonic(b'L', b'X', b'N'), LxNavigation),
        12 => Row(b'V', Mnemonic(b'L', b'X', b'V'), LxNav),
        13 => Row(NONE, Mnemonic(b'N', b'A', b'V'), Naviter),
        14 => Row(b'N', Mnemonic(b'N', b'T', b'E'), NewTechnologies),
        15 => Row(b'K', Mnemonic(b'N', b'K', b'L'), NielsenKellerman),
        16 => Row(b'P', Mnemonic(b'P', b'E', b'S'), Peschges),
        17 => Row(NONE, Mnemonic(b'P', b'F', b'E'), PressFinishElectronics),
        18 => Row(b'R', Mnemonic(b'P', b'R', b'T'), PrintTechnik),
        19 => Row(b'H', Mnemonic(b'S', b'C', b'H'), Scheffel),
        20 => Row(b'S', Mnemonic(b'S', b'D', b'I'), StreamlineDataInstruments),
        21 => Row(b'T', Mnemonic(b'T', b'R', b'I'), TriadisEngineering),
        _ => Row(b'Z', Mnemonic(b'Z', b'A', b'N'), Zander),
    }
}

// The row's maker has the letter.
fn has_letter(row: Row, letter: u8) -> bool
    ensures { result ≡ is_letter letter (row_letter row.0) }
{
    row.0 == letter && letter != NONE
}

// Three bytes as one number, so that one comparison decides on all of them.
fn number(triple: Mnemonic) -> u32
    ensures { result ≡ triple_number triple }
{
    (triple.0 as u32) * 65536 + (triple.1 as u32) * 256 + (triple.2 as u32)
}

impl Manufacturer {
    // The maker of a letter; a letter that no maker has is carried.
    #[tactic(auto, unfolding(crate::specs::Maker::letter_maker))]
    pub fn parse_single_char(letter: u8) -> Manufacturer
        ensures { result ≡ letter_maker letter }
    {
        for place in 0..KNOWN {
            let row = listed(place);
            if has_letter(row, letter) {
                return row.2;
            }
        }
        UnknownSingle(letter)
    }

    // The maker of a triple; a triple that no maker has is carried.
    #[tactic(auto, unfolding(crate::specs::Maker::triple_maker))]
    pub fn parse_triple_char(triple: Mnemonic) -> Manufacturer
        ensures { result ≡ triple_maker triple }
    {
        let wanted = number(triple);
        for place in 0..KNOWN {
            let row = listed(place);
            if number(row.1) == wanted {
                return row.2;
            }
        }
        UnknownTriple(triple)
    }

    // The place in the list of a maker that is not unknown.
    fn place(self) -> usize
        requires { ((l : ℕ) → self ≡ Manufacturer.UnknownSingle l → ⊥)
            × ((t : Mnemonic) → self ≡ Manufacturer.UnknownTriple t → ⊥) }
        ensures { (result < 23) × (self ≡ get_or known result Manufacturer.Zander) }
    {
        match self {
            Aircotec => 0,
            CambridgeAeroInstruments => 1,
            ClearNavInstruments => 2,
            DataSwan => 3,
            EwAvionics => 4,
            Filser => 5,
            Flarm => 6,
            Flytech => 7,
            Garrecht => 8,
            ImiGlidingEquipment => 9,
            Logstream => 10,
            LxNavigation => 11,
            LxNav => 12,
            Naviter => 13,
            NewTechnologies => 14,
            NielsenKellerman => 15,
            Peschges => 16,
            PressFinishElectronics => 17,
            PrintTechnik => 18,
            Scheffel => 19,
            StreamlineDataInstruments => 20,
            TriadisEngineering => 21,
            Zander => 22,
            UnknownSingle(_) => KNOWN,
            UnknownTriple(_) => KNOWN,
        }
    }

    // The maker's letter, where it has one.
    #[tactic(auto, unfolding(crate::specs::Maker::letter_of_lem))]
    pub fn to_single_char(self) -> Option<u8>
        ensures { result ≡ letter_of_lem self }
    {
        match self {
            UnknownSingle(own) => Some(own),
            UnknownTriple(_) => None,
            _ => {
                let row = listed(self.place());
                if row.0 == NONE {
                    return None;
                }
                Some(row.0)
            }
        }
    }

    // The maker's triple, where it has one.
    #[tactic(auto, unfolding(crate::specs::Maker::triple_of))]
    pub fn to_triple_char(self) -> Option<Mnemonic>
        ensures { result ≡ triple_of self }
    {
        match self {
            UnknownSingle(_) => None,
            UnknownTriple(own) => Some(own),
            _ => {
                let row = listed(self.place());
                Some(row.1)
            }
        }
    }
}
