ghost use Rattle.std.specs.Prelude.{◌≡◌, Some, None, codes};
ghost use Rattle.permit_tables.specs.declared.res_type.ResType.TheVariants.{We, Earo, Wear, Eaar};
ghost use Rattle.audit_log.specs.TrailView.{CountsUp};
ghost use Rattle.audit_log.specs.Lines.{line_of, reservation_text};
ghost use Rattle.audit_log.specs.Rows.{first_contact, ready, wrong_key, lost, was_reset, taken_out, brought_in, medium_changed, refused_field, unknown_opcode, HandedOut};

/// Worked rows: records and their lines.
pub fn line_rows()
    ensures first_contact { line_of first_contact
        ≡ codes "1 500000000000000a.1 TEST-UNIT-READY 2 - - 02" }
    ensures ready { line_of ready
        ≡ codes "2 500000000000000a.1 TEST-UNIT-READY 6 TEST-UNIT-READY/NONE/OTHER - 00" }
    ensures wrong_key { line_of wrong_key
        ≡ codes "2 500000000000000a.1 REGISTER 3 REGISTER/NONE/OTHER K1 18" }
    ensures lost { line_of lost ≡ codes "3 500000000000000a.1 LOSS 6 - - 00" }
    ensures was_reset { line_of was_reset ≡ codes "40 - RESET 6 - - 00" }
    ensures taken_out { line_of taken_out
        ≡ codes "18446744073709551615 - MEDIUM-OUT 6 - - 00" }
    ensures brought_in { line_of brought_in ≡ codes "41 - MEDIUM-IN 6 - - 00" }
    ensures medium_changed { line_of medium_changed
        ≡ codes "255 500000000000000a.4 WRITE(6) 4 WRITE(6)/EAAR/HOLDER - 02" }
    ensures refused_field { line_of refused_field
        ≡ codes "10 5000c500112233ff.2 REGISTER 5 REGISTER/WERO/REGISTERED - 02" }
    ensures unknown_opcode { line_of unknown_opcode
        ≡ codes "1 500000000000000a.1 INVALID 1 - - 02" }
{}

/// Worked rows: trails that records are handed out from.
pub fn trail_rows()
    ensures { HandedOut }
{}

/// Worked rows: reservations of a nexus, as they are written behind a line.
pub fn reservation_rows()
    ensures none { reservation_text None ≡ codes "-" }
    ensures exclusive { reservation_text (Some (We, record { sas = 0x500000000000000A; port = 1 }))
        ≡ codes "WE/500000000000000a.1" }
    ensures registrants_only { reservation_text (Some (Earo, record { sas = 0x5000C500112233FF; port = 4 }))
        ≡ codes "EARO/5000c500112233ff.4" }
    ensures all_registrants { reservation_text (Some (Wear, record { sas = 0x500000000000000A; port = 1 }))
        ≡ codes "WEAR/ALL" }
    ensures exclusive_all { reservation_text (Some (Eaar, record { sas = 0x500000000000000A; port = 1 }))
        ≡ codes "EAAR/ALL" }
{}

/// Law: in a trail the number of each record is told by its place, counted from the last number
/// before the first.
#[tactic(auto, using(crate::proofs::Numbers::number_at))]
pub fn numbers_count_up()
    ensures { CountsUp }
{}
