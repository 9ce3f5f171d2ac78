//! Instances, and how one is opened.

ghost use Rattle.std.specs.Prelude.{◌≡◌, IfOk, IfErr, None};
ghost use Rattle.sandbox_core.specs.Session.{given};

use crate::plugin::{Plugin, WASI};
use plugin_core::Stage;
use sandbox_core::{RefusedParts, of_host, of_instance};
use std::alloc::Global;
use std::marker::Model;
use stream_answers::{Inlet, Outlet};
use vol_sector::Device;
use vol_tree::Volume;
use wasi_calls::{HostParts, RefusedHost, Settings, WasiHost};
use wasm_interp::InvokedMachine;

/// An instance of a module with its volume and its streams, whose exported functions are called.
#[derive(Drop)]
pub struct Instance<'a, 's, 't, D: Device, R: Inlet, W1: Outlet, W2: Outlet> {
    pub(crate) machine: InvokedMachine<'a>,
    pub(crate) host: WasiHost<'s, 't, D, R, W1, W2>,
    pub(crate) stage: Stage,
}

impl<'a, 's, 't, D: Device, R: Inlet, W1: Outlet, W2: Outlet> Model
    for Instance<'a, 's, 't, D, R, W1, W2> {
    ghost use Rattle.plugin_session.specs.Instance.{InstanceState};

    ghost Value = { InstanceState D R W1 W2 };

    ghost view = { λ i. record { machine = i.machine; host = i.host; stage = i.stage } };
}

impl<'a, 's, 't, D, R, W1, W2> Instance<'a, 's, 't, D, R, W1, W2>
where
    D: Device + Drop,
    R: Inlet + Drop,
    W1: Outlet + Drop,
    W2: Outlet + Drop,
{
    ghost use Rattle.sandbox_core.specs.Session.{HandsBack, Shares};
    ghost use Rattle.plugin_session.specs.Instance.{IsRefused, Opens, session_of};

    /// An instance of the module, which has used nothing yet: its start function and its `_initialize` are about to run. The
    /// streams are the descriptors 0 to 2, and the preopened directories of the settings those from 3 on. The settings have the
    /// pages that the module was prepared for.
    ///
    /// A refusal hands everything back. It comes for the settings first, then for the module, and then for the volume and its
    /// directories.
    pub fn new(
        alloc: Global,
        plugin: &Plugin<'a>,
        settings: Settings<'s, 't>,
        volume: Volume<D>,
        input: R,
        out: W1,
        err: W2,
    ) -> Result<Instance<'a, 's, 't, D, R, W1, W2>, RefusedParts<'s, 't, D, R, W1, W2>>
        requires { settings.pages ≡ plugin.now.pages }
        ensures opens { IfOk result (Opens plugin.now.valid
            (given settings.entry volume input out err)) }
        ensures shares { IfOk result (λ i. Shares D.Device
            (given settings.entry volume input out err) (session_of i)) }
        ensures hands_back { IfErr result (λ r. HandsBack D.Device plugin.now.valid
            (given settings.entry volume input out err)
            (record { valid = plugin.now.valid; parts = r.parts; fault = r.fault })) }
        ensures refused { IfErr result (λ r. IsRefused D.honest r.fault plugin.now.valid
            (given settings.entry volume input out err)) }
    {
        let parts = HostParts {
            settings,
            volume,
            input,
            out,
            err,
        };
        Instance::of_parts(alloc, plugin, parts)
    }

    /// The same, of parts that are packed.
    pub fn of_parts(
        alloc: Global,
        plugin: &Plugin<'a>,
        parts: HostParts<'s, 't, D, R, W1, W2>,
    ) -> Result<Instance<'a, 's, 't, D, R, W1, W2>, RefusedParts<'s, 't, D, R, W1, W2>>
        requires { parts.settings.pages ≡ plugin.now.pages }
        ensures opens { IfOk result (Opens plugin.now.valid parts.entry) }
        ensures shares { IfOk result (λ i. Shares D.Device parts.entry (session_of i)) }
        ensures hands_back { IfErr result (λ r. HandsBack D.Device plugin.now.valid parts.entry
            (record { valid = plugin.now.valid; parts = r.parts; fault = r.fault })) }
        ensures refused { IfErr result (λ r. IsRefused D.honest r.fault plugin.now.valid
            parts.entry) }
    {
        parts.volume.is_a_tree(); // a law for the contract
        let mut host = match WasiHost::new(alloc, parts) {
            Ok(host) => host,
            Err(RefusedHost { parts, fault }) => {
                return Err(RefusedParts {
                    parts,
                    fault: of_host(fault),
                });
            }
        };
        let machine = match plugin.module.open(alloc, &host, WASI) {
            Ok(machine) => machine,
            Err(fault) => {
                return Err(RefusedParts {
                    parts: host.into_parts(),
                    fault: of_instance(fault),
                });
            }
        };
        match host.preopen() {
            Ok(()) => Ok(Instance {
                machine,
                host,
                stage: Stage::Opening,
            }),
            Err(fault) => Err(RefusedParts {
                parts: host.into_parts(),
                fault: of_host(fault),
            }),
        }
    }
}
