// The public calls of CodeBuilder, in the order of builder.rs and with its names, and `emit_numbered`, which makes an
// emitting call by its number. Each decides before it writes, and what it is told is not trusted. A call's comment says
// what it does, then which refusals (R27) it can give, in their order. "Then, live," is where dead code is accepted and
// nothing changes; 18 names the first table without room, of code, locations, marks. The modules behind hold what the
// calls share, each what its name says.
ghost use Rattle.std.specs.Prelude.{◌%◌, length, [], ◌≡◌};
ghost use Rattle.builder.specs.State.{dead_of, kept};
ghost use Rattle.builder.specs.Locations.{position_of, with_location};
ghost use Rattle.builder.specs.Regions.{new_of, region_of};
ghost use Rattle.builder.specs.Constants.{add_const_of, added_kept};
ghost use Rattle.builder.specs.Exceptions.{add_exception_of};
ghost use Rattle.builder.specs.Names.{build_of, register_name_of, register_names_of};
ghost use Rattle.builder.specs.Emission.{emit_named, emit_of, load_op, load_operand, outcome};
ghost use Rattle.builder.specs.Emission.{store_op, store_operand};
ghost use Rattle.builder.specs.Numbered.{numbered_of};
ghost use Rattle.builder.specs.Marks.{target_of, target_outcome};
ghost use Rattle.builder.specs.Forward.{emit_jump_of, jump_outcome};
ghost use Rattle.builder.specs.Back.{emit_jump_to_of};
ghost use Rattle.builder.specs.Patch.{patch_jump_of, patch_outcome};
ghost use Rattle.op.specs.Chosen.{CallAttrKw, CallBuiltinFunction, CallBuiltinType, CallFunctionKw, LoadGlobalCallable};
ghost use Rattle.op.specs.Opcodes.{RaiseUnboundLocal};

use crate::{
    Builder, Core, JumpLabel, JumpTarget, Location, back, emission, exceptions, forward, marks,
    names, numbered, patch, regions, tables,
};
use code::{
    CODE_LIMIT, CodeRange, EXCEPTION_CELLS, HandlerKind, MARK_CELLS, START_CELLS, WORD_MAX,
};
use op::{Operand, Refusal, Table, opcodes};

impl Builder {
    // Makes a builder with nothing in it, told that it is dead, or live at a depth. Told live, it stores its start.
    // Refuses 18.
    pub fn new(told: Option<u16>, starts: &mut [u32]) -> Result<Builder, Refusal>
        ensures { kept result starts.new ≡ new_of told starts.old }
    {
        let Some(d) = told else {
            return Ok(regions::fresh_at(None, 0));
        };
        if starts.len() / START_CELLS <= 0 {
            return Err(Refusal::Full(Table::Starts));
        }
        tables::put(starts, &[0, d as u32]);
        Ok(regions::fresh_at(Some(d), 1))
    }

    // Sets the source location of the instructions to come.
    // Never refuses.
    pub fn set_location(self, range: CodeRange, focus: Option<CodeRange>) -> Builder
        ensures { result ≡ with_location self (Some (record { range = range; focus = focus })) }
    {
        Builder {
            location: Some(Location { range, focus }),
            ..self
        }
    }

    // Emits an instruction without an operand, and follows the depth.
    // Refuses 19, 1, then, live, 2, 4, 5, 18.
    pub fn emit(
        self,
        opcode: u8,
        code: &mut [u8],
        locations: &mut [u32],
    ) -> Result<Builder, Refusal>
        ensures { outcome result code.new locations.new
            ≡ emit_of self opcode Operand.None [] code.old locations.old }
    {
        emission::emit_with_operand(self, opcode, 0, Operand::None, code, locations)
    }

    // Emits an instruction with a u8.
    // Refuses 19, 1, then, live, 2, 4, 5, 18.
    pub fn emit_u8(
        self,
        opcode: u8,
        operand: u8,
        code: &mut [u8],
        locations: &mut [u32],
    ) -> Result<Builder, Refusal>
        ensures { outcome result code.new locations.new
            ≡ emit_of self opcode (Operand.U8 operand) [] code.old locations.old }
    {
        emission::emit_with_operand(self, opcode, 0, Operand::U8(operand), code, locations)
    }

    // Emits an instruction with an i8.
    // Refuses 19, 1, then, live, 2, 5, 18.
    pub fn emit_i8(
        self,
        opcode: u8,
        operand: i8,
        code: &mut [u8],
        locations: &mut [u32],
    ) -> Result<Builder, Refusal>
        ensures { outcome result code.new locations.new
            ≡ emit_of self opcode (Operand.I8 operand) [] code.old locations.old }
    {
        emission::emit_with_operand(self, opcode, 0, Operand::I8(operand), code, locations)
    }

    // Emits an instruction with two u8: UnpackEx, with the counts before and after.
    // Refuses 19, 1, then, live, 2, 4, 5, 18.
    pub fn emit_u8_u8(
        self,
        opcode: u8,
        operand1: u8,
        operand2: u8,
        code: &mut [u8],
        locations: &mut [u32],
    ) -> Result<Builder, Refusal>
        ensures { outcome result code.new locations.new
            ≡ emit_of self opcode (Operand.U8U8 operand1 operand2) [] code.old locations.old }
    {
        emission::emit_with_operand(
            self,
            opcode,
            0,
            Operand::U8U8(operand1, operand2),
            code,
            locations,
        )
    }

    // Emits an instruction with a u16.
    // Refuses 19, 1, then, live, 2, 4, 5, 18.
    pub fn emit_u16(
        self,
        opcode: u8,
        operand: u16,
        code: &mut [u8],
        locations: &mut [u32],
    ) -> Result<Builder, Refusal>
        ensures { outcome result code.new locations.new
            ≡ emit_of self opcode (Operand.U16 operand) [] code.old locations.old }
    {
        emission::emit_with_operand(self, opcode, 0, Operand::U16(operand), code, locations)
    }

    // Emits an instruction with two u16: LoadSubmodule, with the attribute and the dotted path.
    // Refuses 19, 1, then, live, 2, 5, 18.
    pub fn emit_u16_u16(
        self,
        opcode: u8,
        operand1: u16,
        operand2: u16,
        code: &mut [u8],
        locations: &mut [u32],
    ) -> Result<Builder, Refusal>
        ensures { outcome result code.new locations.new
            ≡ emit_of self opcode (Operand.U16U16 operand1 operand2) [] code.old locations.old }
    {
        emission::emit_with_operand(
            self,
            opcode,
            0,
            Operand::U16U16(operand1, operand2),
            code,
            locations,
        )
    }

    // Emits an instruction with a u16 and a u8: MakeFunction, CallAttr, CallAttrExtended.
    // Refuses 19, 1, then, live, 2, 4, 5, 18.
    pub fn emit_u16_u8(
        self,
        opcode: u8,
        operand1: u16,
        operand2: u8,
        code: &mut [u8],
        locations: &mut [u32],
    ) -> Result<Builder, Refusal>
        ensures { outcome result code.new locations.new
            ≡ emit_of self opcode (Operand.U16U8 operand1 operand2) [] code.old locations.old }
    {
        emission::emit_with_operand(
            self,
            opcode,
            0,
            Operand::U16U8(operand1, operand2),
            code,
            locations,
        )
    }

    // Emits an instruction with a u16 and two u8: MakeClosure, with the function and the counts of defaults and cells.
    // Refuses 19, 1, then, live, 2, 4, 5, 18.
    pub fn emit_u16_u8_u8(
        self,
        opcode: u8,
        operand1: u16,
        operand2: u8,
        operand3: u8,
        code: &mut [u8],
        locations: &mut [u32],
    ) -> Result<Builder, Refusal>
        ensures { outcome result code.new locations.new
            ≡ emit_of self opcode (Operand.U16U8U8 operand1 operand2 operand3) [] code.old
            locations.old }
    {
        emission::emit_with_operand(
            self,
            opcode,
            0,
            Operand::U16U8U8(operand1, operand2, operand3),
            code,
            locations,
        )
    }

    // Emits CallBuiltinFunction, with the function's number and the count of arguments.
    // Refuses 19, then, live, 4, 5, 18.
    pub fn emit_call_builtin_function(
        self,
        builtin: u8,
        count: u8,
        code: &mut [u8],
        locations: &mut [u32],
    ) -> Result<Builder, Refusal>
        ensures { outcome result code.new locations.new
            ≡ emit_of self CallBuiltinFunction (Operand.U8U8 builtin count) [] code.old
            locations.old }
    {
        self.emit_u8_u8(
            opcodes::CALL_BUILTIN_FUNCTION,
            builtin,
            count,
            code,
            locations,
        )
    }

    // Emits CallBuiltinType, with the type's number and the count of arguments.
    // Refuses 19, then, live, 4, 5, 18.
    pub fn emit_call_builtin_type(
        self,
        builtin: u8,
        count: u8,
        code: &mut [u8],
        locations: &mut [u32],
    ) -> Result<Builder, Refusal>
        ensures { outcome result code.new locations.new
            ≡ emit_of self CallBuiltinType (Operand.U8U8 builtin count) [] code.old
            locations.old }
    {
        self.emit_u8_u8(opcodes::CALL_BUILTIN_TYPE, builtin, count, code, locations)
    }

    // Emits CallFunctionKw with its keyword names, in the order in which their values were pushed.
    // Refuses 19, then, live, 7, 4, 18.
    pub fn emit_call_function_kw(
        self,
        positional: u8,
        kwnames: &[u16],
        code: &mut [u8],
        locations: &mut [u32],
    ) -> Result<Builder, Refusal>
        ensures { outcome result code.new locations.new
            ≡ emit_of self CallFunctionKw (Operand.CallKw positional (length kwnames.now % 256))
            kwnames.now code.old locations.old }
    {
        let names = names::count_byte(kwnames.len());
        emission::emit_with_names(
            self,
            opcodes::CALL_FUNCTION_KW,
            0,
            Operand::CallKw { positional, names },
            kwnames,
            code,
            locations,
        )
    }

    // Emits CallAttrKw with its keyword names, in the order in which their values were pushed.
    // Refuses 19, then, live, 7, 4, 18.
    pub fn emit_call_attr_kw(
        self,
        attribute: u16,
        positional: u8,
        kwnames: &[u16],
        code: &mut [u8],
        locations: &mut [u32],
    ) -> Result<Builder, Refusal>
        ensures { outcome result code.new locations.new
            ≡ emit_of self CallAttrKw (Operand.CallAttrKw attribute positional (length kwnames.now % 256))
            kwnames.now code.old locations.old }
    {
        let names = names::count_byte(kwnames.len());
        emission::emit_with_names(
            self,
            opcodes::CALL_ATTR_KW,
            0,
            Operand::CallAttrKw {
                attribute,
                positional,
                names,
            },
            kwnames,
            code,
            locations,
        )
    }

    // Emits a forward jump, whose target is not known yet, and answers the label to patch later. After Jump the code is
    // dead; the other jumps go on. In dead code the label is Dead.
    // Refuses 19, 1, then, live, 3, 4 of the taken depth, 4, 5, 18.
    pub fn emit_jump(
        self,
        opcode: u8,
        code: &mut [u8],
        locations: &mut [u32],
        marks: &mut [u32],
    ) -> Result<(Builder, JumpLabel), Refusal>
        ensures { jump_outcome result code.new locations.new marks.new
            ≡ emit_jump_of self opcode code.old locations.old marks.old }
    {
        let core = self.core;
        let decision = forward::decide_jump(
            core,
            self.location,
            opcode,
            code.len(),
            locations.len(),
            marks.len(),
        )?;
        let Some(plan) = decision else {
            return Ok((self, JumpLabel::Dead));
        };
        let next = forward::commit_jump(
            core,
            self.location,
            opcode,
            plan.size,
            plan.after,
            plan.word,
            code,
            locations,
            marks,
        );
        Ok((Builder { core: next, ..self }, JumpLabel::Row(core.marks)))
    }

    // Has a forward jump go to where the code now ends. Dead code is live again, at the label's depth.
    // Refuses 19, then, of a label that is not Dead, 13, 14, 11, 6.
    pub fn patch_jump(
        self,
        label: JumpLabel,
        code: &mut [u8],
        marks: &mut [u32],
    ) -> Result<Builder, Refusal>
        ensures { patch_outcome result code.new marks.new
            ≡ patch_jump_of self label code.old marks.old }
    {
        let core = self.core;
        if !marks::counts_sound(core, code.len(), marks.len()) {
            return Err(Refusal::Unsound);
        }
        let JumpLabel::Row(i) = label else {
            return Ok(self);
        };
        let mark = marks::mark_in(core.marks, marks, i);
        let decision = patch::decide_mark(mark, core)?;
        let Some(plan) = decision else {
            return Ok(self);
        };
        let next = patch::commit_patch(core, i, plan.offset, plan.word, plan.after, code, marks);
        Ok(Builder { core: next, ..self })
    }

    // Emits a jump back to a known target.
    // Refuses 19, 1, then, live, 3, 4 of the taken depth, 12 or 13, 11, 6, 4, 5, 18.
    pub fn emit_jump_to(
        self,
        opcode: u8,
        target: JumpTarget,
        code: &mut [u8],
        locations: &mut [u32],
        marks: &[u32],
    ) -> Result<Builder, Refusal>
        ensures { outcome result code.new locations.new
            ≡ emit_jump_to_of self opcode target code.old locations.old marks.now }
    {
        let core = match target {
            JumpTarget::Dead => {
                back::jump_nowhere(self.core, self.location, opcode, code, locations, marks)?
            }
            JumpTarget::Row(row) => back::jump_to_core(
                self.core,
                self.location,
                opcode,
                row,
                code,
                locations,
                marks,
            )?,
        };
        Ok(Builder { core, ..self })
    }

    // Answers where the next instruction will stand.
    // Never refuses.
    pub fn current_offset(self) -> usize
        ensures { result ≡ self.core.code }
    {
        self.core.code
    }

    // Answers the source range that was set, for diagnostics; 0, 0 where none was.
    // Never refuses.
    pub fn current_position(self) -> CodeRange
        ensures { result ≡ position_of self.location }
    {
        match self.location {
            None => CodeRange { start: 0, end: 0 },
            Some(set) => set.range,
        }
    }

    // Answers the place and the depth here as a target to jump back to. In dead code the target is Dead.
    // Refuses 19, then, live, 18.
    pub fn current_jump_target(self, marks: &mut [u32]) -> Result<(Builder, JumpTarget), Refusal>
        ensures { target_outcome result marks.new ≡ target_of self marks.old }
    {
        let core = self.core;
        if CODE_LIMIT < core.code {
            return Err(Refusal::Unsound);
        }
        if marks.len() / MARK_CELLS < core.marks {
            return Err(Refusal::Unsound);
        }
        let Some(d) = core.depth else {
            return Ok((self, JumpTarget::Dead));
        };
        marks::mark_target(self, d, marks)
    }

    // Names the slots 0, 1, .. in one pass, before any other name.
    // Refuses 19, 16, 18.
    pub fn register_local_names(self, names: &[u32], table: &mut [u64]) -> Result<Builder, Refusal>
        ensures { kept result table.new ≡ register_names_of self names.now table.old }
    {
        let core = self.core;
        let held = self.names;
        if CODE_LIMIT < core.code {
            return Err(Refusal::Unsound);
        }
        if table.len() < held {
            return Err(Refusal::Unsound);
        }
        if held != 0 {
            return Err(Refusal::NamesHeld);
        }
        if table.len() < names.len() {
            return Err(Refusal::Full(Table::Names));
        }
        names::fill_names(table, names);
        Ok(Builder {
            names: names.len(),
            ..self
        })
    }

    // Names a slot, where it has no name yet: the first name stays.
    // Refuses 19, 18.
    pub fn register_local_name(
        self,
        slot: u16,
        name: u32,
        table: &mut [u64],
    ) -> Result<Builder, Refusal>
        ensures { kept result table.new ≡ register_name_of self slot name table.old }
    {
        let core = self.core;
        let held = self.names;
        if CODE_LIMIT < core.code {
            return Err(Refusal::Unsound);
        }
        if table.len() < held {
            return Err(Refusal::Unsound);
        }
        let at = slot as usize;
        if at < held {
            table[at] = names::named_cell(table[at], name);
            return Ok(self);
        }
        if table.len() <= at {
            return Err(Refusal::Full(Table::Names));
        }
        names::extend(&mut table[held..], at - held, name);
        Ok(Builder {
            names: at + 1,
            ..self
        })
    }

    // Emits RaiseUnboundLocal with the name that the error reports.
    // Refuses 19, 8, then, live, 18.
    pub fn emit_raise_unbound_local(
        self,
        name: u32,
        code: &mut [u8],
        locations: &mut [u32],
    ) -> Result<Builder, Refusal>
        ensures { outcome result code.new locations.new
            ≡ emit_named self RaiseUnboundLocal name (Operand.U16 (name % 65536)) [] code.old
            locations.old }
    {
        let word = names::name_word(name);
        emission::emit_with_operand(
            self,
            opcodes::RAISE_UNBOUND_LOCAL,
            name,
            Operand::U16(word),
            code,
            locations,
        )
    }

    // Emits the shortest load of a slot: 0 to 3 have opcodes of their own, then a byte, then a word.
    // Refuses 19, then, live, 5, 18.
    pub fn emit_load_local(
        self,
        slot: u16,
        code: &mut [u8],
        locations: &mut [u32],
    ) -> Result<Builder, Refusal>
        ensures { outcome result code.new locations.new
            ≡ emit_of self (load_op slot) (load_operand slot) [] code.old locations.old }
    {
        if slot <= 3 {
            return self.emit(opcodes::LOAD_LOCAL0 + slot as u8, code, locations);
        }
        if slot <= 255 {
            return self.emit_u8(opcodes::LOAD_LOCAL, slot as u8, code, locations);
        }
        self.emit_u16(opcodes::LOAD_LOCAL_W, slot, code, locations)
    }

    // Emits LoadGlobalCallable with its slot and its name: global slots are no local slots, so the name goes along.
    // Refuses 19, 8, then, live, 5, 18.
    pub fn emit_load_global_callable(
        self,
        slot: u16,
        name: u32,
        code: &mut [u8],
        locations: &mut [u32],
    ) -> Result<Builder, Refusal>
        ensures { outcome result code.new locations.new
            ≡ emit_named self LoadGlobalCallable name (Operand.U16U16 slot (name % 65536)) [] code.old
            locations.old }
    {
        let word = names::name_word(name);
        emission::emit_with_operand(
            self,
            opcodes::LOAD_GLOBAL_CALLABLE,
            name,
            Operand::U16U16(slot, word),
            code,
            locations,
        )
    }

    // Emits LoadName, StoreName or DeleteName with its slot, its name and its flags.
    // Refuses 19, 1, 8, then, live, 2, 4, 5, 18.
    pub fn emit_name_op(
        self,
        opcode: u8,
        slot: u16,
        name: u32,
        flags: u8,
        code: &mut [u8],
        locations: &mut [u32],
    ) -> Result<Builder, Refusal>
        ensures { outcome result code.new locations.new
            ≡ emit_named self opcode name (Operand.U16U16U8 slot (name % 65536) flags) [] code.old
            locations.old }
    {
        let word = names::name_word(name);
        emission::emit_with_operand(
            self,
            opcode,
            name,
            Operand::U16U16U8(slot, word, flags),
            code,
            locations,
        )
    }

    // Emits the shorter store of a slot. Slots 0 to 3 have no opcodes of their own here.
    // Refuses 19, then, live, 4, 18.
    pub fn emit_store_local(
        self,
        slot: u16,
        code: &mut [u8],
        locations: &mut [u32],
    ) -> Result<Builder, Refusal>
        ensures { outcome result code.new locations.new
            ≡ emit_of self (store_op slot) (store_operand slot) [] code.old locations.old }
    {
        if slot <= 255 {
            return self.emit_u8(opcodes::STORE_LOCAL, slot as u8, code, locations);
        }
        self.emit_u16(opcodes::STORE_LOCAL_W, slot, code, locations)
    }

    // Makes an emitting call by its number, on numbers as C gives them: numbered.rt has the list, and no jump is in it.
    // Numbers that the call does not take are not looked at.
    // Refuses 2 where there is no such call or a number is too large for its field, then as the call does.
    pub fn emit_numbered(
        self,
        call: u8,
        opcode: u8,
        a: u16,
        b: u32,
        c: u8,
        kwnames: &[u16],
        code: &mut [u8],
        locations: &mut [u32],
    ) -> Result<Builder, Refusal>
        ensures { outcome result code.new locations.new
            ≡ numbered_of self call opcode a b c kwnames.now code.old locations.old }
    {
        let names = names::count_byte(kwnames.len());
        let instruction = numbered::of_call(call, opcode, a, b, c, names);
        let Some(chosen) = instruction else {
            return Err(Refusal::WrongShape);
        };
        emission::emit_with_names(
            self,
            chosen.opcode,
            chosen.name,
            chosen.operand,
            kwnames,
            code,
            locations,
        )
    }

    // Adds a constant, and answers its index.
    // Refuses 19, 9, 18.
    pub fn add_const(self, value: u64, constants: &mut [u64]) -> Result<(Builder, u16), Refusal>
        ensures { added_kept result constants.new ≡ add_const_of self value constants.old }
    {
        let core = self.core;
        let row = self.constants;
        if CODE_LIMIT < core.code {
            return Err(Refusal::Unsound);
        }
        if constants.len() < row {
            return Err(Refusal::Unsound);
        }
        if (WORD_MAX as usize) < row {
            return Err(Refusal::TooManyConstants);
        }
        if constants.len() <= row {
            return Err(Refusal::Full(Table::Constants));
        }
        tables::put(&mut constants[row..], &[value]);
        Ok((
            Builder {
                constants: row + 1,
                ..self
            },
            row as u16,
        ))
    }

    // Adds an exception handler. For nested blocks the innermost comes first.
    // Refuses 19, 10, 18.
    pub fn add_exception_entry(
        self,
        start: usize,
        end: usize,
        handler: usize,
        stack_depth: u16,
        exception_stack_count: u16,
        kind: HandlerKind,
        exceptions: &mut [u32],
    ) -> Result<Builder, Refusal>
        ensures { kept result exceptions.new
            ≡ add_exception_of self start end handler stack_depth exception_stack_count kind
            exceptions.old }
    {
        let core = self.core;
        let row = self.exceptions;
        if CODE_LIMIT < core.code {
            return Err(Refusal::Unsound);
        }
        if exceptions.len() / EXCEPTION_CELLS < row {
            return Err(Refusal::Unsound);
        }
        if !exceptions::offsets_fit(start, end, handler) {
            return Err(Refusal::TooLarge);
        }
        if exceptions.len() / EXCEPTION_CELLS <= row {
            return Err(Refusal::Full(Table::Exceptions));
        }
        let base = row * EXCEPTION_CELLS;
        tables::put(
            &mut exceptions[base..],
            &[
                start as u32,
                end as u32,
                handler as u32,
                stack_depth as u32,
                exception_stack_count as u32,
                u32::from(kind),
            ],
        );
        Ok(Builder {
            exceptions: row + 1,
            ..self
        })
    }

    // Answers the depth here; none in dead code.
    // Never refuses.
    pub fn stack_depth(self) -> Option<u16>
        ensures { result ≡ self.core.depth }
    {
        self.core.depth
    }

    // Answers whether the code is dead.
    // Never refuses.
    pub fn is_dead(self) -> bool
        ensures { result ≡ dead_of self.core.depth }
    {
        self.core.depth.is_none()
    }

    // Finishes the body: slots without a name get `fill`.
    // Refuses 19, 17.
    pub fn build(self, fill: u32, names: &mut [u64], marks: &[u32]) -> Result<Builder, Refusal>
        ensures { kept result names.new ≡ build_of self fill names.old marks.now }
    {
        let core = self.core;
        let held = self.names;
        if CODE_LIMIT < core.code {
            return Err(Refusal::Unsound);
        }
        if names.len() < held {
            return Err(Refusal::Unsound);
        }
        if marks.len() / MARK_CELLS < core.marks {
            return Err(Refusal::Unsound);
        }
        if marks::any_open(core.marks, marks) {
            return Err(Refusal::OpenLabel);
        }
        names::fill_absent(&mut names[..held], fill);
        Ok(self)
    }

    // Opens a region of live code at a depth that comes from outside: a body's first, or an exception handler's.
    // Refuses 19, 15, 18.
    pub fn new_code_region(self, depth: u16, starts: &mut [u32]) -> Result<Builder, Refusal>
        ensures { kept result starts.new ≡ region_of self depth starts.old }
    {
        let core = self.core;
        if CODE_LIMIT < core.code {
            return Err(Refusal::Unsound);
        }
        if starts.len() / START_CELLS < self.starts {
            return Err(Refusal::Unsound);
        }
        if let Some(_) = core.depth {
            return Err(Refusal::RegionWhileLive);
        }
        regions::store_start(self, depth, starts)
    }
}
