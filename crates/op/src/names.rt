// The opcodes' names, as op.rs has them: one text, and where in it each begins. A const array is made anew at each use, so the two
// are made once, by the caller, and lent: as `Names`.
ghost use Rattle.std.specs.Prelude.{◌≡◌};
ghost use Rattle.op.specs.Names.{name_text, name_starts, name_by, name_of};

const TEXT: [u8; 1315] =
    *b"PopDupRot2Rot3LoadConstLoadNoneLoadTrueLoadFalseLoadSmallIntLoadLocal0LoadLocal1LoadLocal2LoadLocal3LoadLocalLoadLocalWStoreLocalStoreLocalWLoadGlobalStoreGlobalLoadCellStoreCellDeleteLocalLoadGlobalCallableBinaryAddBinarySubBinaryMulBinaryDivBinaryFloorDivBinaryModBinaryPowBinaryAndBinaryOrBinaryXorBinaryLShiftBinaryRShiftBinaryMatMulCompareEqCompareNeCompareLtCompareLeCompareGtCompareGeCompareIsCompareIsNotCompareInCompareNotInUnaryNotUnaryNegUnaryPosUnaryInvertInplaceAddInplaceSubInplaceMulInplaceDivInplaceFloorDivInplaceModInplacePowInplaceAndInplaceOrInplaceXorInplaceLShiftInplaceRShiftBuildListBuildTupleBuildDictBuildSetFormatValueBuildFStringBuildSliceListExtendListToTupleDictMergeListAppendSetAddDictSetItemBinarySubscrStoreSubscrLoadAttrLoadAttrImportStoreAttrCallFunctionCallBuiltinFunctionCallBuiltinTypeCallFunctionKwCallAttrCallAttrKwCallFunctionExtendedCallAttrExtendedJumpJumpIfTrueJumpIfFalseJumpIfTrueOrPopJumpIfFalseOrPopGetIterForIterMakeFunctionMakeClosureRaiseReraiseClearExceptionCheckExcMatchReturnValueAwaitUnpackSequenceUnpackExNopLoadModuleLoadSubmoduleDup2DeleteGlobalDictUpdateSetExtendBeforeWithWithExitWithExceptStartLiftToTopRaiseUnboundLocalMethodDictMergeAssertAssertFailedBuildCellDeleteCellLoadNameStoreNameDeleteNameMatchShapeMatchKeysMatchClassMatchAttrSinkTopRaiseFrom";

const STARTS: [usize; 132] = [
    0, 3, 6, 10, 14, 23, 31, 39, 48, 60, 70, 80, 90, 100, 109, 119, 129, 140, 150, 161, 169, 178,
    189, 207, 216, 225, 234, 243, 257, 266, 275, 284, 292, 301, 313, 325, 337, 346, 355, 364, 373,
    382, 391, 400, 412, 421, 433, 441, 449, 457, 468, 478, 488, 498, 508, 523, 533, 543, 553, 562,
    572, 585, 598, 607, 617, 626, 634, 645, 657, 667, 677, 688, 697, 707, 713, 724, 736, 747, 755,
    769, 778, 790, 809, 824, 838, 846, 856, 876, 892, 896, 906, 917, 932, 948, 955, 962, 974, 985,
    990, 997, 1011, 1024, 1035, 1040, 1054, 1062, 1065, 1075, 1088, 1092, 1104, 1114, 1123, 1133,
    1141, 1156, 1165, 1182, 1197, 1203, 1215, 1224, 1234, 1242, 1251, 1261, 1271, 1280, 1290, 1299,
    1306, 1315,
];

// All names, one behind the other.
pub fn text() -> [u8; 1315]
    ensures { result ≡ name_text }
{
    TEXT
}

// Where each name begins in that text, and where the last ends.
pub fn starts() -> [usize; 132]
    ensures { result ≡ name_starts }
{
    STARTS
}

// The name of an opcode, as a part of a lent text of names by the lent starts; nothing where there is no such part.
pub fn of_opcode<'a>(opcode: u8, text: &'a [u8], starts: &[usize]) -> &'a [u8]
    ensures { result.now ≡ name_by text.now starts.now opcode }
{
    let i = opcode as usize;
    if starts.len() <= i + 1 {
        return &text[0..0];
    }
    let a = starts[i];
    let e = starts[i + 1];
    if text.len() < e {
        return &text[0..0];
    }
    if e < a {
        return &text[0..0];
    }
    &text[a..e]
}

// All names, made once for many look-ups.
#[derive(Drop)]
pub struct Names {
    pub text: [u8; 1315],
    pub starts: [usize; 132],
    ghost own: { (text ≡ name_text) × (starts ≡ name_starts) },
}

impl Names {
    pub fn new() -> Names
        ensures { (result.text ≡ name_text) × (result.starts ≡ name_starts) }
    {
        Names {
            text: text(),
            starts: starts(),
        }
    }

    // An opcode's name; nothing for a number that is no opcode's.
    #[tactic(auto, using(crate::proofs::Named::own_name))]
    pub fn of(&self, opcode: u8) -> &[u8]
        ensures { result.now ≡ name_of opcode }
    {
        of_opcode(opcode, &self.text, &self.starts)
    }
}
