ghost use Rattle.std.specs.Prelude.{◌≡◌, Some, None, [], ◌∷◌};
ghost use Rattle.mr_model.specs.declared.request.Request.TheVariants as request;
ghost use Rattle.mr_opt.specs.Options.{set_by, request_of};
ghost use Rattle.mr_opt.specs.Records.{sg_bytes, sg_of, vif_bytes, vif_of};
ghost use Rattle.mr_opt.specs.WorkedRecords as worked;

/// Worked rows of the definitions of records: its contract says by which bytes requests are made,
/// and what bytes ask for. It does nothing.
pub fn worked_records()
    ensures add_vif { set_by (request.AddVif worked.on_device)
        ≡ Some (202, worked.on_device_bytes) }
    ensures add_vif_by_address { set_by (request.AddVif worked.by_address)
        ≡ Some (202, worked.by_address_bytes) }
    ensures del_vif { set_by (request.DelVif 258) ≡ Some (203, worked.vif_alone) }
    ensures add_mfc { set_by (request.AddMfc worked.entry) ≡ Some (204, worked.entry_bytes) }
    ensures del_mfc { set_by (request.DelMfc worked.name) ≡ Some (205, worked.name_alone) }
    ensures add_proxy { set_by (request.AddProxy worked.entry) ≡ Some (210, worked.entry_bytes) }
    ensures del_proxy { set_by (request.DelProxy worked.name) ≡ Some (211, worked.name_alone) }
    ensures set_assert { set_by (request.Assert 0x01020304) ≡ Some (207, worked.number_bytes) }
    ensures pim { set_by (request.Pim 0x01020304) ≡ Some (208, worked.number_bytes) }
    ensures flush { set_by (request.Flush 0x01020304) ≡ Some (212, worked.number_bytes) }
    ensures init { set_by request.Init ≡ Some (200, 1 ∷ 0 ∷ 0 ∷ 0 ∷ []) }
    ensures done { set_by request.Finish ≡ Some (201, []) }
    ensures version { set_by request.GetVersion ≡ None }
    ensures vif_asked { request_of 202 worked.on_device_and_more ≡ request.AddVif worked.on_device }
    ensures address_asked { request_of 202 worked.by_address_bytes
        ≡ request.AddVif worked.by_address }
    ensures vif_named { request_of 203 worked.by_address_bytes ≡ request.DelVif 258 }
    ensures entry_asked { request_of 204 worked.entry_bytes ≡ request.AddMfc worked.entry }
    ensures entry_named { request_of 205 worked.entry_bytes ≡ request.DelMfc worked.name }
    ensures any_number { request_of 200 worked.number_bytes ≡ request.Init }
    ensures flags_asked { request_of 212 worked.number_bytes ≡ request.Flush 0x01020304 }
    ensures any_length { request_of 201 worked.on_device_bytes ≡ request.Finish }
    ensures no_record { request_of 200 [] ≡ request.BadLength 200 }
    ensures long_record { request_of 208 worked.on_device_bytes ≡ request.BadLength 208 }
    ensures version_set { request_of 206 worked.number_bytes ≡ request.Unknown 206 }
    ensures table_set { request_of 209 worked.number_bytes ≡ request.Unknown 209 }
    ensures sg { sg_bytes worked.source worked.group worked.totals ≡ worked.sg_record }
    ensures sg_asked { sg_of worked.sg_record ≡ (worked.source, worked.group, worked.totals) }
    ensures vif { vif_bytes 31 worked.vif_totals ≡ worked.vif_record }
    ensures vif_read { vif_of worked.vif_record ≡ (31, worked.vif_totals) }
{}
