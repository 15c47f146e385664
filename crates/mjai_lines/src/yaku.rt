ghost use Rattle.std.specs.Prelude.{◌≡◌};
ghost use Rattle.mj_forms.specs.Lines.{row_name};

/// The name of a row of the table of yaku, 0 to 44; empty for a number above these.
#[tactic(auto, unfolding(mj_yaku::specs::Han::table))]
pub fn yaku_name(row: u8) -> &'static [u8]
    ensures { result.now ≡ row_name row }
{
    match row {
        0 => b"reach",
        1 => b"double_reach",
        2 => b"ippatsu",
        3 => b"menzen_tsumo",
        4 => b"pinfu",
        5 => b"iipeikou",
        6 => b"tanyao",
        7 => b"seat_wind",
        8 => b"round_wind",
        9 => b"white",
        10 => b"green",
        11 => b"red",
        12 => b"haitei",
        13 => b"houtei",
        14 => b"rinshan",
        15 => b"chankan",
        16 => b"chiitoitsu",
        17 => b"toitoi",
        18 => b"sanankou",
        19 => b"sankantsu",
        20 => b"sanshoku_doukou",
        21 => b"honroutou",
        22 => b"shousangen",
        23 => b"sanshoku_doujun",
        24 => b"ittsu",
        25 => b"chanta",
        26 => b"honitsu",
        27 => b"junchan",
        28 => b"dora",
        29 => b"uradora",
        30 => b"akadora",
        31 => b"ryanpeikou",
        32 => b"chinitsu",
        33 => b"kokushi",
        34 => b"suuankou",
        35 => b"daisangen",
        36 => b"shousuushi",
        37 => b"daisuushi",
        38 => b"tsuuiisou",
        39 => b"chinroutou",
        40 => b"ryuuiisou",
        41 => b"chuuren",
        42 => b"suukantsu",
        43 => b"tenhou",
        44 => b"chiihou",
        _ => b"",
    }
}
