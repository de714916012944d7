// The station sheet: five texts in one, packed and unpacked.
//   texts   == the checks of five texts
//   frame   == where the texts of a sheet stand, by the counts alone
//   unpack  == the frame and the checks
//   pack    == the sheet of five texts
//   upgrade == a sheet of four sections with an empty fifth
#![tactic(auto)]

pub mod frame;
pub mod pack;
pub mod texts;
pub mod unpack;
pub mod upgrade;

// The place and length of each text of a sheet.
#[derive(Clone, Copy)]
pub struct Parts {
    pub allow: section::Part,
    pub deny: section::Part,
    pub byuid: section::Part,
    pub portacl: section::Part,
    pub tables: section::Part,
}
